// The wheel's calls over lent records as a static library of C functions, under the names that they have in the crate
// `exports`: each calls the function of its name there and promises the same. No `requires`.
#![tactic(auto)]

pub mod advancing; // start, pull, abandon
pub mod counts; // armed count, next due
pub mod making; // create, enable
pub mod settings; // set entry
pub mod timers; // schedule, reschedule, deschedule
