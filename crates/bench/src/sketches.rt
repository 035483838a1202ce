// The workloads of the sketch, on its public calls.
ghost use Rattle.std.specs.Prelude.{◌≤◌};

use crate::generator::following;
use sketch_rules::Sketch;

#[derive(Clone, Copy)]
pub enum Workload {
    Increase,
    Estimate,
    Index,
}

// A sketch after a run of increases, and the generator's last number.
#[derive(Clone, Copy)]
struct Made {
    sketch: Sketch,
    x: u64,
}

// The digest of the workload on a table of so many words, a power of two up to 65,536; none on any other. The loops
// that are timed stand in functions of their own, so that the program around them takes none of their registers.
pub fn digest_of(workload: Workload, words: u64, calls: u64, x: u64) -> Option<u64> {
    if words > 65536 || !words.is_power_of_two() {
        return None;
    }
    let n = words as usize;
    Some(match workload {
        Workload::Increase => on_table(n, |table| digest_of_increases(table, calls, x)),
        Workload::Estimate => on_table(n, |table| sum_of_estimates(table, calls, x)),
        Workload::Index => sum_of_indexes(words, calls, x),
    })
}

// What the work answers on a table of so many words, all of them 0.
fn on_table<W: FnOnce(&mut [u64]) -> u64>(words: usize, work: W) -> u64
    requires within { words ≤ 65536 }
    requires called { W.IsAlwaysCallable work }
{
    let mut table = [0u64; 65536];
    work(&mut table[..words])
}

// So many increases on a fresh sketch: the digest of the table and the record.
fn digest_of_increases(table: &mut [u64], calls: u64, x: u64) -> u64 {
    let s = fresh(table);
    let after = increases(table, s, calls, x).sketch;
    let words = lines::digest_all(lines::digest_start(), table);
    lines::digest_all(words, &[after.used as u64, after.sample, after.size])
}

// So many estimates on a sketch that has seen 8 increases for each word: their sum.
fn sum_of_estimates(table: &mut [u64], calls: u64, x: u64) -> u64 {
    let s = fresh(table);
    let seen = 8 * (table.len() as u64);
    let made = increases(table, s, seen, x);
    estimates(table, made.sketch, calls, made.x)
}

// A sketch over the whole table, all of it 0.
fn fresh(table: &mut [u64]) -> Sketch {
    table.fill(0);
    let words = table.len() as u64;
    sketch::ensure_capacity(table, sketch::unused(), words).unwrap_or(sketch::unused())
}

#[inline(never)]
fn increases(table: &mut [u64], sketch: Sketch, calls: u64, first: u64) -> Made {
    let mut s = sketch;
    let mut x = first;
    for _ in 0..calls {
        x = following(x);
        s = increased(table, s, x);
    }
    Made { sketch: s, x }
}

// The record after an increase; the one before where it is refused. A function of its own: in the loop itself, by
// `match` or `unwrap_or`, a turn runs a sixth more instructions.
fn increased(table: &mut [u64], s: Sketch, hash: u64) -> Sketch {
    match sketch::increase(table, s, hash) {
        Ok(after) => after,
        Err(_) => s,
    }
}

#[inline(never)]
fn estimates(table: &[u64], sketch: Sketch, calls: u64, first: u64) -> u64 {
    let mut sum: u64 = 0;
    let mut x = first;
    for _ in 0..calls {
        x = following(x);
        sum = sum.wrapping_add(sketch::estimate(table, sketch, x).unwrap_or(0));
    }
    sum
}

// So many word indexes, depth after depth, in a table of so many words: their sum.
#[inline(never)]
fn sum_of_indexes(words: u64, calls: u64, first: u64) -> u64 {
    let mask = words.wrapping_sub(1);
    let mut sum: u64 = 0;
    let mut x = first;
    for i in 0..calls {
        x = following(x);
        sum = sum.wrapping_add(sketch::word_index(x, i % 4, mask));
    }
    sum
}
