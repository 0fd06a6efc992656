// The state of the transactions (01, "Messages"): at its start, with one of its parts anew, in its ranges, and what a user reads of a
// place; flags and notes; reports. What each of these is, is said in crate `exchange`. Judging (crate `judging`) and the clerk (crate `clerk`)
// change the state through these functions, but where a request and a tick put several parts anew at once.
//
// No public function has a `requires`: each answers for every input, and its `ensures` is one equation with a definition of `exchange`.
#![tactic(auto)]

mod flags;
mod note;
mod range;
mod reading;
mod reporting;
mod state;

pub use flags::{incoming_flags, no_flags, verdict_flag};
pub use note::{note_number, note_of};
pub use range::in_range;
pub use reading::{incoming_reading, own_reading};
pub use reporting::{caused, freed_in, is_message, is_over, outbox, same_message, with_outbox};
pub use state::{
    fresh, got_verdict, incoming_place, latest_after, own_place, put_incoming, put_own,
    put_replied, with_saved, with_sending,
};
