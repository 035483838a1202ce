// The digest of what the workloads leave.

// The digest of the first elements as next leads from the front, so many as are asked for and there are.
pub fn digest(heads: &[usize], next: &[usize], element: &[u64], shown: usize) -> u64 {
    let mut h = lines::digest_start();
    let Some(front) = heads.get(0) else {
        return h;
    };
    let mut s = *front;
    for _ in 0..shown {
        if s >= next.len() || s >= element.len() {
            break;
        }
        h = lines::digest_step(h, element[s]);
        s = next[s];
    }
    h
}
