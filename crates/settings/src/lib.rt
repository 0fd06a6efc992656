// Settings in the steps of the panel, ticks of 0.1 s, timers, and the settings of the line and of the transactions (01,
// "Settings and time").
//
// "Panel steps and ticks are kept apart": each kind of step has a type of its own, and a `Ticks` is made by the conversions of
// this crate alone, for its field is private. So no timer is held against a limit that was not converted, and none is
// converted twice.
#![tactic(auto)]

mod limits;
mod panel;
mod terms;
mod timer;

pub use limits::{Limits, Panel};
pub use panel::{Fifths, Seconds, Tenths, Ticks};
pub use terms::{MessagePanel, Terms};
