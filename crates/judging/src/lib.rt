// Judging (E4 7.4; 01, "A block that goes up is judged in this order"). What a block comes to is said in crate `exchange`
// (specs/Judge.antt as it is done, specs/Rules.antt as it is promised).
//
// The state is a value, and `judge` has no `requires`: it answers for every input, and its `ensures` is one equation for all it answers
// and every byte of the room.
#![tactic(auto)]

mod judging;

pub use judging::judge;
