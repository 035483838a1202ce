// The numbers that drive the workloads.

// The generator's first number: the seed, and 1 for 0, after which only 0 would come.
pub fn first_number(seed: u64) -> u64 {
    if seed == 0 { 1 } else { seed }
}

// The generator's next number.
pub fn following(x: u64) -> u64 {
    let a = x ^ (x << 13);
    let b = a ^ (a >> 7);
    b ^ (b << 17)
}
