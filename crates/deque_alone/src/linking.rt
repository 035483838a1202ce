// The public calls that put a node at the back: refusals in order, then the work. None asks anything of its input. A
// refused call leaves every record as found.
#![tactic(auto, using(deque_rules::proofs::alone::Refusing::ready))]

ghost use Rattle.deque_rules.specs.Deque.{DequePromised, push_back, move_to_back};
ghost use Rattle.deque_rules.specs.alone.Refuse.{RefusesNode};
ghost use Rattle.numbers.specs.Rows.{refusal_in};
ghost use Rattle.deque.specs.Slices.{links_of, links_now, SameSlices};
ghost use Rattle.deque_alone.specs.Slices.{records, state_now, SameDeques};

use crate::lending::{Deques, DequesMut};
use crate::unchecked::shift_links;
use deque::linked::{Linked, LinkedMut};
use deque_rules::alone::{Done, Placed, Pushed};
use numbers::refusals::Refusal;

impl DequesMut<'_> {
    // Puts the element e at the back of the deque d, in the first free node. Answers that node, or refuses (4, 10, 16).
    pub fn push_back(&mut self, cursors: &mut [usize], free: usize, d: usize, e: u64) -> Pushed
        ensures does { DequePromised (push_back d e) (state_now self.old cursors.old) free
            (state_now self.new cursors.new) result }
        ensures same { SameDeques self.old self.new }
    {
        self.as_read().push_refusal(cursors, free, d)?;
        let rest = self.push(cursors, free, d, e);
        Ok(Placed {
            slot: free,
            free: rest,
        })
    }

    // Moves the node s of the deque d to its back, or refuses (4, 16, 17).
    pub fn move_to_back(&mut self, cursors: &mut [usize], free: usize, d: usize, s: usize) -> Done
        ensures does { DequePromised (move_to_back d s) (state_now self.old cursors.old) free
            (state_now self.new cursors.new) result }
        ensures same { SameDeques self.old self.new }
    {
        self.as_read().node_refusal(cursors, free, d, s)?;
        self.shift(cursors, free, d, s);
        Ok(())
    }
}

// The same on lengths and elements that are lent for reading: a move writes none.
pub fn move_to_back(
    links: &mut LinkedMut<'_>,
    lens: &[usize],
    cursors: &mut [usize],
    element: &[u64],
    free: usize,
    d: usize,
    s: usize,
) -> Done
    ensures does { DequePromised (move_to_back d s)
        (records (links_now links.old) lens.now cursors.old element.now) free
        (records (links_now links.new) lens.now cursors.new element.now) result }
    ensures same { SameSlices links.old links.new }
{
    refuse_move(links.as_read(), lens, cursors, element, free, d, s)?;
    shift_links(links, lens, cursors, element, free, d, s);
    Ok(())
}

// Whether a move is refused.
fn refuse_move<'a>(
    links: Linked<'a>,
    lens: &'a [usize],
    cursors: &[usize],
    element: &'a [u64],
    free: usize,
    d: usize,
    s: usize,
) -> Result<(), Refusal>
    ensures { RefusesNode (records (links_of links.entry) lens.now cursors.now element.now) free d s
        (refusal_in result) }
{
    let deques = Deques {
        links,
        lens,
        element,
    };
    deques.node_refusal(cursors, free, d, s)
}
