// A timer: a number of ticks, held against its limit on each tick.
ghost use Rattle.std.specs.Prelude.{◌≡◌};
ghost use Rattle.settings.specs.Timer.{ticked};

use crate::panel::Ticks;

impl Ticks {
    // One tick more on a timer whose limit this is: at how many ticks it is then, or none where it exceeds its limit. The test comes
    // first: so the sum is within the limit.
    #[tactic(auto, unfolding(crate::specs::Timer::ticked))]
    pub fn tick(self, timer: u32) -> Option<u32>
        ensures { result ≡ ticked self timer }
    {
        if timer < self.count() {
            Some(timer + 1)
        } else {
            None
        }
    }
}
