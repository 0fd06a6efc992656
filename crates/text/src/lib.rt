// Text as it is read: a line's fields, and what a field says: a letter, a decimal number, or bytes in hex (01, "Bench program and proved
// table": "Numbers are decimal, bytes hex, `-` no data"; docs/READINGS.md, 27). Nothing here knows what a line is for.
//
// The model: definitions and statements in `specs/`, and the proofs about them; it has no type of its own. The functions are crate
// `parse`.
#![tactic(auto)]
