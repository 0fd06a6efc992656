// What a block says: its ten header bytes (E4 6).
//
// Nothing here knows of the line or of transactions. No public function has a `requires`: each answers for every
// input, and its `ensures` is an equation with a definition of `specs/`.
#![tactic(auto)]

mod header;

pub use header::Header;
