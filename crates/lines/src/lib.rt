// The lines of a trace: collected from standard input block by block, taken apart into parts, and answered through a
// buffer.
//
// Every function is proved and none of the public ones has a `requires`. What a line means is said in specs/, on lists
// of bytes. A program is a loop: `Lines` goes to the next line, `requested` says what it asks for (or `kind_of`,
// `count`, `is_part` and `number_at` take it apart), `tell` notes what is answered, and `Answers` puts its line after
// those that wait, and writes them out before more is read; `flush` ends it. What reads takes a handle to the input,
// what may write one to the output: `main` passes on its runtime.
#![tactic(auto)]

mod answers;
mod asking;
mod chains;
mod collecting;
mod digests;
mod lending;
mod parts;
mod reading;
mod rows;
mod telling;

pub use crate::answers::Answers;
pub use crate::asking::{Asked, requested};
pub use crate::collecting::{Kind, Lines, kind_of};
pub use crate::digests::{digest_all, digest_start, digest_step};
pub use crate::lending::within;
pub use crate::parts::{count, first, is_part, part};
pub use crate::reading::{Number, number_at};
pub use crate::rows::{NONE, PAST_END, Value, digest_row};
pub use crate::telling::{BAD_LINE, NO_LINE, SHOWN, tell, tell_none};
