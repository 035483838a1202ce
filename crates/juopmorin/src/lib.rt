// Everything that a host in C or Rust links: one static library, libjuopmorin.a, whose header is include/juopmorin.h.
// The wheel's calls over lent records: create answers by value; the result of every other call is the refusal's number,
// or 0, and its answer is written to five lent numbers (face_rules, specs/Face.antt). Each calls the function of that
// name, `wheel_` for `juop_`, in the crate `exports` and promises the same. And the two functions on plain numbers. No
// `requires`.
#![tactic(auto)]

pub mod advancing; // start, pull, abandon
pub mod counts; // armed count, next due
pub mod making; // create, enable
pub mod plain; // where a deadline goes, and the word of a hash
pub mod settings; // set entry
pub mod timers; // schedule, reschedule, deschedule
