// The alarm wheel over lent records: the node records as one array of structs, heads and tails of the buckets, and the
// entries beside them (dated, deadline, and stamp, the generation). The clock is the caller's: lent where a call
// changes it. Every call answers for every input: what is refused is an error, and then every lent record is as found.
// No `requires`. Each call but enable reads the nodes into columns of its own, lends them to its work (crate
// face_works), and stores back what changed.
#![tactic(auto)]

pub mod advancing; // start, pull, abandon
pub mod counts; // armed count, next due
pub mod making; // enable
pub mod settings; // set entry
pub mod timers; // schedule, reschedule, deschedule
mod writing; // a call that writes nodes

pub use crate::advancing::{abandon, pull, start};
pub use crate::counts::{armed_count, next_due};
pub use crate::making::enable;
pub use crate::settings::set_entry;
pub use crate::timers::{deschedule, reschedule, schedule};
pub use face_rules::Node;
pub use numbers::refusals::Refusal;
pub use wheel::create;
pub use wheel_rules::calls::{Clock, Created, Event, Handle, Rescheduled};
