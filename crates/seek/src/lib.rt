// Look-ups in the two tables of four places, a tick at all of them, and the next transaction number. What is meant by each is said in
// crate `table`.
//
// A place outside the table is as a free one, and putting one there changes nothing. So no function has a `requires`.
#![tactic(auto)]

mod find;
mod incoming;
mod number;
mod own;

pub use incoming::{
    free_incoming, incoming_at, incoming_put, message_for, open_alike, tick_incoming,
};
pub use number::{next_number, number_of};
pub use own::{free_own, own_at, own_put, reply_for, tick_own};
