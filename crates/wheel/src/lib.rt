// The alarm wheel over lent records, in parallel slices: of the slots with the heads and tails of the buckets (`Nodes`,
// `NodesMut`), and of the entries (`Entries`, `EntriesMut`). The clock goes in by value and comes back in the answer
// where a call changes it; after a refusal the caller's own still holds. Every call answers for every input: what is
// refused is `Err`, and then every lent record is as found. No `requires`.
#![tactic(auto)]

pub mod advancing; // start, abandon
pub mod arming; // schedule
pub mod counts; // armed count, next due
pub mod enabling; // enable
pub mod handles; // reschedule, deschedule
pub mod making; // create
pub mod pulling; // pull
pub mod settings; // set entry

pub use crate::advancing::{abandon, start};
pub use crate::arming::schedule;
pub use crate::counts::{armed_count, next_due};
pub use crate::enabling::enable;
pub use crate::handles::{deschedule, reschedule};
pub use crate::making::create;
pub use crate::pulling::pull;
pub use crate::settings::set_entry;
pub use numbers::refusals::Refusal;
pub use wheel_rules::calls::{After, Clock, Created, Event, Handle, Rescheduled};
pub use wheel_timers::lent::{Entries, EntriesMut, Nodes, NodesMut};
