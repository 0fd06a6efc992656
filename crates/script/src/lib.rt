// The lines of bench: one that it reads as a command, and one that it prints (01, "Bench program and proved table"). What a field of a
// line says is crate `text`.
//
// The model: types here, definitions and statements in `specs/`, and the proofs about them. The functions are crate `scribe`.
#![tactic(auto)]

use exchange::Primary;
use link::Setup;

// What a line asks for. A line that can't be read asks for nothing: it is read as `None`.
#[derive(Clone, Copy)]
pub enum Command {
    // "First line: role (H host, E equipment), T1, T2, T3, T4, RTY, DEVID, duplicate check, last number."
    Start(Setup),
    // "`O` source W stream function data". The data is the first `length` bytes of those lent.
    Open {
        primary: Primary,
        length: usize,
    },
    // "`R` place function data".
    Reply {
        place: u8,
        function: u8,
        length: usize,
    },
    // "`L` O or I and place".
    ReleaseOwn(u8),
    ReleaseIncoming(u8),
    // "`B` bytes": how many.
    Bytes(usize),
    // "`T` count".
    Ticks(u32),
    // "`D`".
    Drained,
    // "`V` place".
    Verdict(u8),
    // `K` (02, request 2).
    Dropped,
}

// What is printed for a line.
#[derive(Clone, Copy)]
pub enum Printed {
    // "refusal number or 0, bytes out in hex or `-`, note".
    Answer { number: u8, note: u8 },
    // "V, place, verdict".
    Verdict { place: u8, verdict: u8 },
    // `K n`: how many reports were dropped (02, request 2).
    Dropped { count: u32 },
    // `?`.
    Unreadable,
}
