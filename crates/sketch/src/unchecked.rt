// The sketch's work on a sound record, unchecked: for proved code only. The table and the length in use stay two
// parameters with a `requires` on both: a type that holds the fact would ask more of who calls these public functions.
ghost use Rattle.std.specs.Prelude.{◌≡◌, ◌<◌, ◌≤◌, ◌++◌, length, drop, replicate};
ghost use Rattle.sketch_rules.specs.Aging.{Ready, Settles, Raises};
ghost use Rattle.sketch_rules.specs.Hashes.{InUse, Counts};
ghost use Rattle.sketch_rules.specs.Sketch.{least, raised_at, rises_at, grown_size, aged_size};

use crate::counters::{age, counter_at, raise};
use crate::index::word_at;
pub use sketch_rules::Counted;
use sketch_rules::Sketch;

// The least of a hash's four counters.
pub fn least_count(table: &[u64], used: usize, hash: u64) -> u64
    requires { InUse used table.now }
    ensures { result ≡ least hash used table.now }
{
    let words = used as u64;
    let first = 4 * (hash % 4);
    let mut least: u64 = 15;
    for depth in 0..4 {
        let at = word_at(hash, depth, words) as usize;
        least = least.min(counter_at(table[at], first + depth));
    }
    least
}

// Raises counter k of the word at a place, where it is below 15; 1 if it was.
fn raise_at(table: &mut [u64], at: usize, k: u64) -> u64
    requires at_in_bounds { at < length table.old }
    requires k_bound { k < 16 }
    ensures value { result ≡ rises_at table.old at k }
    ensures table_after { table.new ≡ raised_at table.old at k }
{
    let w = table[at];
    let v = raise(w, k);
    if v == w {
        return 0;
    }
    table[at] = v;
    1
}

// Raises the four counters of a hash that are below 15; how many were.
pub fn count(table: &mut [u64], used: usize, hash: u64) -> u64
    requires { InUse used table.old }
    ensures { Counts hash used table.old result table.new }
{
    let words = used as u64;
    let first = 4 * (hash % 4);
    let mut rose = 0;
    for depth in 0..4 {
        let at = word_at(hash, depth, words) as usize;
        rose += raise_at(table, at, first + depth);
    }
    rose
}

// Zeroes the first words of a table.
pub fn clear(table: &mut [u64], words: usize)
    requires { words ≤ length table.old }
    ensures { table.new ≡ replicate words 0 ++ drop words table.old }
{
    table[..words].fill(0);
}

// The size count after so many counters rose.
fn grown_size(sketch: Sketch, rose: u64) -> u64
    requires { sketch.size < sketch.sample }
    ensures { result ≡ grown_size sketch rose }
{
    if 0 < rose {
        sketch.size + 1
    } else {
        sketch.size
    }
}

// The size count after an aging that found so many odd counters; 0 where they are too many.
fn aged_size(size: u64, odd: u64) -> u64
    ensures { result ≡ aged_size size odd }
{
    (size / 2).saturating_sub(odd / 4)
}

// Ages the table if the size count has come to the sample size.
fn settle(table: &mut [u64], sketch: Sketch, size: u64, rose: u64) -> Counted
    requires { InUse sketch.used table.old }
    ensures { Settles sketch size rose table.old result table.new }
{
    if size < sketch.sample {
        return Counted {
            rose,
            aged: false,
            sketch: Sketch { size, ..sketch },
        };
    }
    let odd = age(table, sketch.used);
    let size = aged_size(size, u64::from(odd));
    Counted {
        rose,
        aged: true,
        sketch: Sketch { size, ..sketch },
    }
}

// An increase of a sketch in use.
pub fn raise_hash(table: &mut [u64], sketch: Sketch, hash: u64) -> Counted
    requires { Ready table.old sketch }
    ensures { Raises table.old sketch hash result table.new }
{
    let rose = count(table, sketch.used, hash);
    let size = grown_size(sketch, rose);
    settle(table, sketch, size, rose)
}
