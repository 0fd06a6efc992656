// What happens to a place (E4 7.3, 7.4; 01, "Messages"): `own` and `incoming` take one and hand the next one back. What a place is, and
// what is proved of its life, is crate `place`.
//
// No public function has a `requires`: each answers for every input, and its `ensures` is an equation with a definition of `place`.
#![tactic(auto)]

mod arriving;
mod fate;
pub mod incoming;
pub mod own;
mod range;
mod verdict;

pub use fate::{begins_primary, fate_of};
pub use range::{incoming_in_range, own_in_range};
pub use verdict::verdict_number;
