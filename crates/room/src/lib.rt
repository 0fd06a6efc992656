// The lent room (01, "Messages"): where the bytes of each message lie. Callers speak of a message and of an offset in
// it; no other crate but its code knows an address. Nothing here knows of blocks or of transactions.
//
// The model: the type here, definitions and statements in `specs/`, and the proofs about them. The functions are crate `store`.
#![tactic(auto)]

// Whose bytes are meant.
#[derive(Clone, Copy)]
pub enum Message {
    // Those of the reply to the primary in an own place.
    Reply(usize),
    // Those of the message in an incoming place.
    Incoming(usize),
    // Those of the message being sent.
    Send,
}
