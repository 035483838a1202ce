// Linked deques and the free chain, and the deque by itself: definitions, laws and the types of the answers. No code.
#![tactic(auto)]

pub mod alone; // what the calls of the deque by itself answer
