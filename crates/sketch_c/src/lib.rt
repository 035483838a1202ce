// The host's function of the sketch as a static library: the word of a hash, by the C calling convention. It calls the
// function of the same name in the crate `sketch` and promises the same. No `requires`.
#![tactic(auto)]

ghost use Rattle.std.specs.Prelude.{◌≡◌};
ghost use Rattle.sketch_rules.specs.Sketch.{word_index};

// For the host: the word of a hash at a depth, in a table of `mask` + 1 words; 65,536 where the depth is above 3 or
// `mask` + 1 is not a power of two up to 65,536.
#[unsafe(no_mangle)]
pub extern "C" fn word_index(hash: u64, depth: u64, mask: u64) -> u64
    ensures { result ≡ word_index hash depth mask }
{
    sketch::word_index(hash, depth, mask)
}
