// Which buckets an advance visits at a level: how many, and which is the next. For the loop of the advance and for the
// test of its position. No `requires`.
ghost use Rattle.std.specs.Prelude.{◌≡◌};
ghost use Rattle.rules.specs.Places.{wheel01, visited_at, bucket_at};

use crate::place::levels::{level_count, level_first, level_shift};

// How many buckets of the level an advance from p to q visits: none where the level's tick does not move, else those
// from p's tick to q's, at most the level's count.
#[inline(always)]
pub fn visited(level: usize, p: u64, q: u64) -> usize
    ensures { result ≡ visited_at wheel01 p q level }
{
    let shift = level_shift(level);
    let from = p >> shift;
    let to = q >> shift;
    if to <= from {
        return 0;
    }
    let count = level_count(level);
    let apart = to - from;
    if apart < count {
        return apart as usize + 1;
    }
    count as usize
}

// The bucket that an advance from p enters after `step` others of the level.
#[inline(always)]
pub fn bucket_at(level: usize, p: u64, step: usize) -> usize
    ensures { result ≡ bucket_at wheel01 p level step }
{
    let shift = level_shift(level);
    let mask = level_count(level) - 1;
    let from = (p >> shift) & mask;
    let more = step as u64 & mask;
    level_first(level) + ((from + more) & mask) as usize
}
