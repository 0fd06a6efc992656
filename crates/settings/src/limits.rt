// The settings of the line: as they stand on the panel, and as the line goes by them.
ghost use Rattle.std.specs.Prelude.{◌≡◌};
ghost use Rattle.settings.specs.Limits.{limits_in_range, limits_of, taken_of};

use crate::panel::{Fifths, Tenths, Ticks, between};

// As on the panel.
#[derive(Clone, Copy)]
pub struct Panel {
    pub t1: Tenths,
    pub t2: Fifths,
    pub rty: u8,
    // The equipment is the master, the host the slave (E4 5.5).
    pub master: bool,
}

// In ticks.
#[derive(Clone, Copy)]
pub struct Limits {
    pub t1: Ticks,
    pub t2: Ticks,
    pub rty: u8,
    pub master: bool,
}

impl Panel {
    fn in_ticks(self) -> Limits
        ensures { result ≡ limits_of self }
    {
        Limits {
            t1: self.t1.ticks(),
            t2: self.t2.ticks(),
            rty: self.rty,
            master: self.master,
        }
    }

    // The limits that these settings are, if each is in its range.
    #[tactic(auto, unfolding(crate::specs::Limits::taken_of, crate::specs::Limits::panel_in_range))]
    pub fn limits(self) -> Option<Limits>
        ensures { result ≡ taken_of self }
    {
        if self.t1.in_range() && self.t2.in_range() && self.rty <= 31 {
            Some(self.in_ticks())
        } else {
            None
        }
    }
}

impl Limits {
    // Whether the limits of a state are in the ranges of docs/STATE.md.
    #[tactic(auto, unfolding(crate::specs::Limits::limits_in_range))]
    pub fn in_range(self) -> bool
        ensures { result ≡ limits_in_range self }
    {
        between(1, self.t1.count(), 100) && between(2, self.t2.count(), 250) && self.rty <= 31
    }
}
