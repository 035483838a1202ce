// The workloads that link and unlink. Each owns the arrays that its loop lends, each a variable, so that the compiler
// knows them apart, and stands in a function of its own, so that the program around it takes none of its registers.
ghost use Rattle.std.specs.Prelude.{◌≤◌};

use crate::deques::choice::chosen;
use crate::deques::digests::digest;
use crate::deques::laying::number_after;
use crate::deques::records::laid;
use crate::generator::following;
use deque::linked::LinkedMut;
use deque_alone::DequesMut;

// So many times a push, with a pop of the front after it, on a deque that has `count` nodes at first: the sum of what
// was popped, and the digest of what is left.
#[inline(never)]
pub fn queue(n: usize, count: usize, calls: u64, first: u64) -> u64
    requires { n ≤ 4096 }
{
    let Some(made) = laid(n, count, first) else {
        return 0;
    };
    let mut heads = made.heads;
    let mut tails = made.tails;
    let mut lens = made.lens;
    let mut cursors = made.cursors;
    let mut next = made.next;
    let mut prev = made.prev;
    let mut home = made.home;
    let mut element = made.element;
    let mut spare = made.free;
    if spare >= n {
        return 0;
    }
    let mut deques = DequesMut {
        links: LinkedMut {
            heads: &mut heads,
            tails: &mut tails,
            next: &mut next[..n],
            prev: &mut prev[..n],
            home: &mut home[..n],
        },
        lens: &mut lens,
        element: &mut element[..n],
    };
    let mut sum: u64 = 0;
    let mut x = number_after(count, first);
    for _ in 0..calls {
        x = following(x);
        let rest = deques.push(&cursors, spare, 0, x);
        spare = deques.links.heads[0];
        sum = sum.wrapping_add(deques.release(&mut cursors, rest, 0, spare));
    }
    sum.wrapping_add(digest(&heads, &next[..n], &element[..n], n))
}

// So many moves to the back at random, on a deque that has every node: the digest.
#[inline(never)]
pub fn moves(n: usize, calls: u64, first: u64) -> u64
    requires { n ≤ 4096 }
{
    let Some(made) = laid(n, n, first) else {
        return 0;
    };
    let mut heads = made.heads;
    let mut tails = made.tails;
    let mut lens = made.lens;
    let mut cursors = made.cursors;
    let mut next = made.next;
    let mut prev = made.prev;
    let mut home = made.home;
    let mut element = made.element;
    let free = made.free;
    if free < n {
        return 0;
    }
    let mut deques = DequesMut {
        links: LinkedMut {
            heads: &mut heads,
            tails: &mut tails,
            next: &mut next[..n],
            prev: &mut prev[..n],
            home: &mut home[..n],
        },
        lens: &mut lens,
        element: &mut element[..n],
    };
    let mut x = number_after(n, first);
    for _ in 0..calls {
        x = following(x);
        let s = chosen(x, deques.links.next.len() as u64);
        deques.shift(&mut cursors, free, 0, s);
    }
    digest(&heads, &next[..n], &element[..n], n)
}

// So many nodes unlinked at random, each with a push after it, on a deque that has every node: the digest.
#[inline(never)]
pub fn unlinking(n: usize, calls: u64, first: u64) -> u64
    requires { n ≤ 4096 }
{
    let Some(made) = laid(n, n, first) else {
        return 0;
    };
    let mut heads = made.heads;
    let mut tails = made.tails;
    let mut lens = made.lens;
    let mut cursors = made.cursors;
    let mut next = made.next;
    let mut prev = made.prev;
    let mut home = made.home;
    let mut element = made.element;
    let mut spare = made.free;
    if spare < n {
        return 0;
    }
    let mut deques = DequesMut {
        links: LinkedMut {
            heads: &mut heads,
            tails: &mut tails,
            next: &mut next[..n],
            prev: &mut prev[..n],
            home: &mut home[..n],
        },
        lens: &mut lens,
        element: &mut element[..n],
    };
    let mut x = number_after(n, first);
    for _ in 0..calls {
        x = following(x);
        let s = chosen(x, deques.links.next.len() as u64);
        deques.release(&mut cursors, spare, 0, s);
        spare = deques.push(&cursors, s, 0, x);
    }
    digest(&heads, &next[..n], &element[..n], n)
}
