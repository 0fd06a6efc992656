// What goes over the line in more than one byte: numbers, the high order byte first, and the checksum (E4 5.7); and bytes put
// into lent memory.
//
// Nothing here knows of a block. How long a message is at most is said here, because all crates that count its bytes are above.
//
// No public function has a `requires`: each answers for every input, and its `ensures`
// is an equation with a definition of `specs/`. There too is what the crates above share: a part of a list and what lent
// memory holds after a write (`Bytes`, `Lent`), and what every public contract owes (`Determined`).
#![tactic(auto)]

mod memory;
mod message;
mod number;
mod sum;

pub use memory::put;
pub use message::{MESSAGE_LIMIT, NEXT_LIMIT};
pub use number::{halves, pair, quad, quarters};
pub use sum::{checksum, sum_with};
