// A chain of nodes as a line.
ghost use Rattle.std.specs.Prelude.{◌≤◌, length};

use crate::answers::Answers;
use crate::rows::NONE;

impl Answers {
    // Puts a line with the word and the nodes from the head on, as next leads, after what waits: at most as many as
    // there are nodes, up to the first link that is no node.
    pub fn say_chain(&mut self, rt: &impl Print, word: &[u8], head: usize, next: &[usize])
        ensures { self.new.waiting ≤ length self.new.out }
    {
        self.append(rt, word);
        let mut x = head;
        for _ in 0..next.len() {
            if x >= next.len() || x as u64 == NONE {
                break;
            }
            self.append_field(rt, x as u64);
            x = next[x];
        }
        self.append(rt, b"\n");
    }
}
