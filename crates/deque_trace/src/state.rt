// What goes from line to line beside the records: how many there are, and the first free node.
ghost use Rattle.std.specs.Prelude.{◌≤◌};

use crate::parse::Call;

const MOST_DEQUES: usize = 256;

const MOST_NODES: usize = 4096;

// How many deques over how many nodes were made (none before the first making), and the first free node.
#[derive(Clone, Copy, Debug, PartialEq, Eq)]
pub struct State {
    pub deques: usize,
    pub nodes: usize,
    pub free: usize,
}

// A call, and how many deques and nodes are lent to it.
#[derive(Clone, Copy, Debug, PartialEq, Eq)]
pub struct Plan {
    pub call: Call,
    pub deques: usize,
    pub nodes: usize,
}

impl State {
    // What the call does in the state, on no more records than there are. Before the first making every other call is a
    // bad line, and more records than there are cannot be lent.
    pub fn planned(self, call: Call) -> Plan
        ensures { (result.deques ≤ 256) × (result.nodes ≤ 4096) }
    {
        match call {
            Call::Make { deques, nodes } if deques <= 256 && nodes <= 4096 => Plan {
                call,
                deques: deques as usize,
                nodes: nodes as usize,
            },
            Call::Make { .. } => self.plan(Call::TooMany),
            Call::Silent => self.plan(call),
            _ if self.deques == 0 => self.plan(Call::Bad),
            _ => self.plan(call),
        }
    }

    // The call on as many records as were made.
    fn plan(self, call: Call) -> Plan
        ensures { (result.deques ≤ 256) × (result.nodes ≤ 4096) }
    {
        Plan {
            call,
            deques: lines::within(self.deques, MOST_DEQUES),
            nodes: lines::within(self.nodes, MOST_NODES),
        }
    }
}
