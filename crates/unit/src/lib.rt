// The calls of the link unit (01): the one door through which a scheduler or a tool uses the line. What each call comes to, and what is
// proved of any calls in any order, is crate `link`; its types are what a user holds. No other crate need be called, but for the number
// of a verdict (`life::verdict_number`).
//
// No public function has a `requires`: each checks its own inputs, and its `ensures` is one equation with a definition of `link` for
// all that it answers and every byte it is lent.
#![tactic(auto)]

mod admit;
mod answer;
mod call;
mod courier;
mod flags;
mod put;
mod reading;
mod request;
mod setup;
mod state;
mod step;
mod told;

pub use answer::{note_number, outcome_number, refusal_number};
pub use call::{byte, drained, tick};
pub use reading::{
    dropped, incoming, incoming_data, is_sending, last_number, own, reply_data, sending,
};
pub use request::{open, release_incoming, release_own, reply};
pub use state::start;
