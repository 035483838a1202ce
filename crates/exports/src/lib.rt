// The wheel's calls over lent records, answered in numbers as C functions answer: the static library exports_c exports
// them under the same names, juopmorin with the prefix juop_. Create answers by value. The result of every other call
// is the refusal's number, or 0, and its answer is written to five lent numbers (face_rules, specs/Face.antt). Each
// calls the face's function and writes its answer. No `requires`.
#![tactic(auto)]

pub mod advancing; // start, pull, abandon
pub mod counts; // armed count, next due
pub mod making; // create, enable
pub mod settings; // set entry
pub mod timers; // schedule, reschedule, deschedule
pub mod words; // answers as numbers
