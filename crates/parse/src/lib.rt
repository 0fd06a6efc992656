// Text is read: a line's fields, and the letter, the decimal number or the bytes that a field says. What these are is said in crate
// `text`.
//
// No public function has a `requires`: each answers for every input, and its `ensures` is an equation with a definition of `text`, for
// the result and every lent byte.
#![tactic(auto)]

mod decimal;
mod fields;
mod hex;

pub use decimal::number;
pub use fields::{behind, field, letter};
pub use hex::{is_data, put_data};
