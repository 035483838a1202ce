// The workloads of the wheel, on the unchecked layer but for the checked counts.
mod calls; // what a workload does to the wheel
mod records; // the records of a workload, and the wheel on them
mod runs; // the workloads
mod told; // what a workload's advances hand out

use crate::wheels::runs::{cancel, count, go_on};

#[derive(Clone, Copy)]
pub enum Workload {
    Cancel,
    Ticks,
    Jumps,
    Count,
}

// The digest of the workload over so many node records, 166 to 4,096; none where they are fewer or more.
pub fn digest_of(workload: Workload, nodes: u64, calls: u64, x: u64) -> Option<u64> {
    if nodes < 166 || nodes > 4096 {
        return None;
    }
    let n = nodes as usize;
    let digest = match workload {
        Workload::Cancel => cancel(n, calls, x),
        Workload::Ticks => go_on(n, calls, x, |n| n & 137438953471, |_| 1073741824),
        Workload::Jumps => {
            let far = |n: u64| (n & 17592186044415).wrapping_add(1099511627776);
            go_on(n, calls, x, |n| n >> 12, far)
        }
        Workload::Count => count(n, calls, x),
    };
    Some(digest)
}
