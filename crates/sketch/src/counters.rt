// A word of 64 bits as sixteen counters of four bits, and the aging of a table of such words. The functions are
// unchecked, for proved code only: a counter's number is below 16, and the part of the table that is aged lies inside
// it.
ghost use Rattle.std.specs.Prelude.{◌≡◌, ◌<◌, ◌≤◌, length};
ghost use Rattle.sketch_rules.specs.Counters.{Raises, Halves};
ghost use Rattle.sketch_rules.specs.Sketch.{counter, odds, halved_to, odds_to};

// Counter k of a word.
pub fn counter_at(w: u64, k: u64) -> u64
    requires { k < 16 }
    ensures { result ≡ counter w k }
{
    (w >> (k * 4)) & 15
}

// The word with 1 added to counter k, where that is below 15.
pub fn raise(w: u64, k: u64) -> u64
    requires { k < 16 }
    ensures { Raises w k result }
{
    let count = counter_at(w, k);
    if count < 15 { w + (1 << (k * 4)) } else { w }
}

// The word with each of its sixteen counters halved, downwards.
pub fn halve(w: u64) -> u64
    ensures { Halves w result }
{
    (w >> 1) & 0x7777_7777_7777_7777
}

// How many of a word's sixteen counters are odd.
pub fn count_odd(w: u64) -> u32
    ensures { result ≡ odds w }
{
    (w & 0x1111_1111_1111_1111).count_ones()
}

// Halves each counter of the first `used` words of a table, and counts those that were odd.
pub fn age(table: &mut [u64], used: usize) -> u32
    requires used_in_bounds { used ≤ length table.old }
    requires used_bound { used ≤ 65536 }
    ensures value { result ≡ odds_to used table.old }
    ensures table_after { table.new ≡ halved_to used table.old }
{
    let mut odd = 0;
    for w in &mut table[..used] {
        odd += count_odd(*w);
        *w = halve(*w);
    }
    odd
}
