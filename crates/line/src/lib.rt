// The serial line (E4 5.3 to 5.8; 01, "The line"): who may speak, one block out, one block in, and the time that each may take.
//
// The line is a value. A call takes it and hands the next one back, with what goes out, what the layer above is told and what is remarked. The
// line never sees what is in a block: a block of ours is "the block" to it, which the layer above puts out when told to, and a
// block of the far end is the bytes since the length byte, kept in an array beside it, and their sum.
//
// A call of the unit on the line is `byte`, `tick` or `drained`, then the judging of what went up, then, where a block of ours
// is to follow, `ask`, and last `settle`, which puts out the ENQ of a block that is held while the line is idle. `withdraw` is for a
// held block whose message is gone.
#![tactic(auto)]

mod line;
mod phase;
mod range;
mod receive;
mod send;
mod step;

pub use line::Line;
pub use phase::{Arrival, Fault, Phase};
pub use step::{Out, Remark, Step, Told};
