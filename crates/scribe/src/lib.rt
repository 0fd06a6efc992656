// Reads a line of bench as a command, and puts an answer down as a line. What a line says, and what is printed, is said in crate
// `script`.
//
// Nothing here runs a command, and nothing reads or writes a file. No public function has a `requires`: each answers for every input,
// and its `ensures` says the result and every lent byte.
#![tactic(auto)]

mod command;
mod printed;

pub use command::read_line;
pub use printed::print_line;
