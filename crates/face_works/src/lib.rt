// The work of the wheel's calls over lent nodes, behind the functions that lend them. The fields of n lent nodes come
// as the first n numbers of the columns; to enable's, which reads none, comes n alone. Where more than 4,096 are lent
// the columns say nothing of them, and the call is refused. No `requires` but in lending, which is unchecked.
#![tactic(auto)]

pub mod advancing; // start, abandon
pub mod answers; // what the calls over columns answer, with the clock from now on
pub mod counts; // armed count, next due
pub mod lending; // the front of the columns, lent for reading
pub mod making; // enable
pub mod refusals; // the refusal where more nodes are lent than a wheel may have
pub mod settings; // set entry
pub mod writing; // schedule, reschedule, deschedule, pull
