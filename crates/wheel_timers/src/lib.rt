// The wheel's timers on records known to be sound, unchecked: for proved code only. Where a deadline is placed; the
// clock's moments; entries set, timers counted, armed, disarmed and rearmed; and the records as enabling lays them out.
// The records are parallel slices: heads and tails of the buckets; next, prev, bucket, entry, generation and serial of
// the slots; dated, deadline and generation of the entries. The clock goes in by value and is handed back.
#![tactic(auto)]

pub mod around; // enabling: all but the node records
pub mod counts; // armed count, next due
pub mod layout; // enabling: all the records
pub mod lent; // the lent slices as two values, slots and entries
pub mod moments; // start, end, abandon
pub mod payload; // entry, generation and serial of a slot
pub mod place; // where a deadline is placed, and the host's placement function
pub mod settings; // setting an entry
pub mod timers; // arming, disarming, rearming
