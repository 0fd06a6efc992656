// The transactions at work (E4 6.8, 7.3, 7.4; 01, "Messages"): requests are taken or refused, ticks counted, and the message being sent
// is put out and ends sent or failed; reports start behind these. What each of these comes to is said in crate `exchange`; blocks that
// went up are judged in crate `judging`.
//
// The state is a value, and no public function has a `requires`: each answers for every input, and its `ensures` is one equation
// with a definition of `exchange` for all it answers and every byte it is lent.
#![tactic(auto)]

mod request;
mod send;
mod time;

pub use request::{is_sending, open, refusal_number, release_incoming, release_own, reply};
pub use send::{failed, outgoing, put_out, sent};
pub use time::{is_still, tick};
