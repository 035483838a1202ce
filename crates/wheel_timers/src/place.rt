// Where a deadline is placed at a reading: the bucket's number, for the wheel, and level x 64 + index, for the host. No
// `requires`.
// The levels are tried from the lowest; the last takes what fits none below it.
ghost use Rattle.std.specs.Prelude.{◌≡◌, ◌-◌};
ghost use Rattle.wheel_rules.specs.Promise.{Placed};
ghost use Rattle.wheel_rules.specs.place.Levels.{index_at, place_at};
ghost use Rattle.wheel_rules.specs.place.Promises.{Found, InBucket};

pub mod levels;
pub mod visits;

use crate::place::levels::{LAST, known, level_count, level_first, level_shift, level_span};
pub use wheel_rules::place::Place;

// How far the deadline lies ahead of the reading. A deadline before the reading counts as difference 0.
pub fn gap(reading: u64, deadline: u64) -> u64
    ensures { result ≡ deadline - reading }
{
    deadline.saturating_sub(reading)
}

// The index of a time at a level: its tick there, modulo the level's bucket count.
pub fn index_at(level: usize, time: u64) -> u64
    ensures { result ≡ index_at level time }
{
    let shift = level_shift(level);
    let count = level_count(level);
    (time >> shift) & (count - 1)
}

// The place of a time at a level.
fn place_at(level: usize, time: u64) -> Place
    ensures { result ≡ place_at level time }
{
    let index = index_at(level, time);
    Place {
        bucket: level_first(level) + index as usize,
        number: known(level) as u64 * 64 + index,
    }
}

// The place of a deadline: at the lowest level that fits, that is, whose limit, the next level's span, is above the
// difference.
pub fn find(reading: u64, deadline: u64) -> Place
    ensures { Found reading deadline result }
{
    let ahead = gap(reading, deadline);
    for level in 0..LAST {
        if ahead < level_span(level + 1) {
            return place_at(level, deadline);
        }
    }
    place_at(LAST, deadline)
}

// The number of the bucket, which is also the slot of its sentinel.
pub fn bucket_of(reading: u64, deadline: u64) -> usize
    ensures { InBucket reading deadline result }
{
    let p = find(reading, deadline);
    p.bucket
}

// For the host: level x 64 + index.
pub fn wheel_place(reading: u64, deadline: u64) -> u64
    ensures { Placed reading deadline result }
{
    let p = find(reading, deadline);
    p.number
}
