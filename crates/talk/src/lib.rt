// What a line of bench does (01, "Bench program and proved table"): the calls that it makes of the unit, and what is printed for it.
//
// The model: types here, definitions and statements in `specs/`, and the proofs about them. The program is crate `bench`.
#![tactic(auto)]

use link::Link;
use script::Printed;

// What a line came to: the unit that the next one is about, what is to be printed, and how many bytes went out. There is no unit yet
// where the next line comes "before the first start that was not refused".
#[derive(Clone, Copy)]
pub struct Shown {
    pub bench: Option<Link>,
    pub printed: Printed,
    pub count: usize,
}

// What the calls of a line came to: the next unit, the last call's number and note, and how many bytes they put out.
#[derive(Clone, Copy)]
pub struct Ran {
    pub link: Link,
    pub number: u8,
    pub note: u8,
    pub count: usize,
}
