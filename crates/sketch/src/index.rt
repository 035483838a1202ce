// Where a hash goes in a table of words: the host's function, and the work of the calls, which is unchecked and for
// proved code only.
ghost use Rattle.std.specs.Prelude.{◌≡◌, ◌<◌, true};
ghost use Rattle.numbers.specs.Shared.{is_power_to};
ghost use Rattle.sketch_rules.specs.Index.{Places};
ghost use Rattle.sketch_rules.specs.Sketch.{word_index};

// The seed of each depth.
const SEEDS: [u64; 4] = [
    0xc3a5_c85c_97cb_3127,
    0xb492_b66f_be98_f273,
    0x9ae1_6a3b_2f90_404f,
    0xcbf2_9ce4_8422_2325,
];

// The word of a hash at a depth, in a table of so many words.
pub fn word_at(hash: u64, depth: u64, words: u64) -> u64
    requires depth_bound { depth < 4 }
    requires words_value { is_power_to 16 words ≡ true }
    ensures { Places hash depth words result }
{
    let seed = SEEDS[depth as usize];
    let x = numbers::wrapping_mul(hash.wrapping_add(seed), seed);
    x.wrapping_add(x >> 32) & (words - 1)
}

// For the host: the word of a hash at a depth, in a table of `mask` + 1 words; 65,536 where the depth is above 3 or
// `mask` + 1 is not a power of two up to 65,536. A number and no Option: the C interface has this answer.
pub fn word_index(hash: u64, depth: u64, mask: u64) -> u64
    ensures { result ≡ word_index hash depth mask }
{
    if depth < 4 && mask < 65536 && numbers::is_power(mask + 1) {
        word_at(hash, depth, mask + 1)
    } else {
        65536
    }
}
