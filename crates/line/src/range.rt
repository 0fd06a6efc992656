// The ranges of the state's numbers (docs/STATE.md): the line's part of refusal 3.
ghost use Rattle.std.specs.Prelude.{◌≡◌};
ghost use Rattle.line.specs.Range.{arrival_in_range, line_in_range};

use crate::line::Line;
use crate::phase::{Arrival, Phase};

impl Arrival {
    #[tactic(auto, unfolding(crate::specs::Range::arrival_in_range, settings::specs::Panel::between))]
    fn in_range(self) -> bool
        ensures { result ≡ arrival_in_range self }
    {
        (10..=254).contains(&self.length) && self.got <= 255 && self.sum <= 64770
    }
}

impl Line {
    #[tactic(auto, unfolding(crate::specs::Range::body_in_range, crate::specs::Range::wait_in_range))]
    pub fn in_range(self) -> bool
        ensures { result ≡ line_in_range self }
    {
        match self.phase {
            Phase::Idle => true,
            Phase::WaitEot { timer, tries } | Phase::WaitAck { timer, tries } => {
                timer <= 250 && tries <= 31
            }
            Phase::Draining { tries } => tries <= 31,
            Phase::WaitLength { timer } => timer <= 250,
            Phase::Body { timer, block } => timer <= 100 && block.in_range(),
            Phase::Silence { timer, .. } => timer <= 100,
        }
    }
}
