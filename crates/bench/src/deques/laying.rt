// The records of one deque whose first nodes hold the generator's numbers in order, the other nodes free.
use crate::generator::following;
use deque_alone::NONE;
use std::array;

// The node after each node, out of n nodes of which so many are in the deque.
pub fn laid_next(n: usize, count: usize) -> [usize; 4096] {
    array::from_fn(|s| if s < n { after(s + 1, n, count) } else { 0 })
}

// The node t, or none where a chain ends before it.
fn after(t: usize, n: usize, count: usize) -> usize {
    if t == count || t == n { NONE } else { t }
}

// The node before each node, where so many are in the deque.
pub fn laid_prev(count: usize) -> [usize; 4096] {
    array::from_fn(|s| if s < count { node_before(s) } else { NONE })
}

// The deque of each node, where so many are in the first.
pub fn laid_home(count: usize) -> [usize; 4096] {
    array::from_fn(|s| if s < count { 0 } else { NONE })
}

// The elements: so many numbers after x.
pub fn laid_element(count: usize, x: u64) -> [u64; 4096] {
    let mut elements = [0; 4096];
    let mut number = x;
    for element in elements.iter_mut().take(count) {
        number = following(number);
        *element = number;
    }
    elements
}

// The generator's number so many numbers after x.
pub fn number_after(count: usize, x: u64) -> u64 {
    (0..count).fold(x, |number, _| following(number))
}

// The node before the node t, or none before the first.
pub fn node_before(t: usize) -> usize {
    if t == 0 { NONE } else { t - 1 }
}

// The first free node out of n, where the first ones are taken.
pub fn first_free(n: usize, count: usize) -> usize {
    if count < n { count } else { NONE }
}

// The first node in the deque, where so many are, or none.
pub fn first_node(count: usize) -> usize {
    if count == 0 { NONE } else { 0 }
}
