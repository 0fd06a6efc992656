// The two tables of four places (01: "up to 4 own transactions open"; "4 incoming areas"), each an array of places that goes by
// value: which place an event is for, which is the lowest free one, a tick at all of them, and the next transaction number. A place
// outside the table is as a free one, and putting one there changes nothing.
//
// The model: definitions and statements in `specs/`, and the proofs about them; it has no type of its own. The functions are crate
// `seek`.
#![tactic(auto)]
