// A place of the wheel: level and index.

// A place: the number of its bucket, 0 to 164, and level x 64 + index.
#[derive(Clone, Copy)]
pub struct Place {
    pub bucket: usize,
    pub number: u64,
}
