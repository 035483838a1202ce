// The levels of 01's wheel: spans, shifts, counts and first buckets, and nothing else knows their numbers. The
// functions take any number: from the last level on they answer as for the last. A `match` is a table in read-only data
// or no table at all; a constant list would be built on the stack in each call. No `requires`.
ghost use Rattle.std.specs.Prelude.{◌≡◌, ◌^◌, min};
ghost use Rattle.wheel_rules.specs.place.Levels.{shift01, size01, first01};

// The number of the last one.
pub const LAST: usize = 4;

// The number of a level that there is.
pub fn known(level: usize) -> usize
    ensures { result ≡ min level 4 }
{
    if level < LAST { level } else { LAST }
}

// A level's span is the length of its tick in nanoseconds, and so the limit of the level below it.
pub fn level_span(level: usize) -> u64
    ensures { result ≡ 2 ^ shift01 level }
{
    match level {
        0 => 0x4000_0000,
        1 => 0x10_0000_0000,
        2 => 0x400_0000_0000,
        3 => 0x8000_0000_0000,
        _ => 0x2_0000_0000_0000,
    }
}

// Its shift is the span's exponent.
pub fn level_shift(level: usize) -> u64
    ensures { result ≡ shift01 level }
{
    match level {
        0 => 30,
        1 => 36,
        2 => 42,
        3 => 47,
        _ => 49,
    }
}

// How many buckets it has.
pub fn level_count(level: usize) -> u64
    ensures { result ≡ 2 ^ size01 level }
{
    match level {
        0 => 64,
        1 => 64,
        2 => 32,
        3 => 4,
        _ => 1,
    }
}

// The number of its first bucket.
pub fn level_first(level: usize) -> usize
    ensures { result ≡ first01 level }
{
    match level {
        0 => 0,
        1 => 64,
        2 => 128,
        3 => 160,
        _ => 164,
    }
}
