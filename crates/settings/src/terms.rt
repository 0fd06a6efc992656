// The settings of the message protocol (E4 7): as they stand on the panel, and as transactions go by them.
ghost use Rattle.std.specs.Prelude.{◌≡◌};
ghost use Rattle.settings.specs.Terms.{agreed_of, terms_in_range, terms_of};

use crate::panel::{Seconds, Ticks, between};

// As on the panel.
#[derive(Clone, Copy)]
pub struct MessagePanel {
    pub t3: Seconds,
    pub t4: Seconds,
    // DEVID: the one device ID of the link (E4 6.3).
    pub device: u16,
    // The duplicate check (E4 7.4.2): 1 on, 0 off.
    pub duplicates: u16,
    // Whether this end is the host.
    pub host: bool,
}

// In ticks.
#[derive(Clone, Copy)]
pub struct Terms {
    pub t3: Ticks,
    pub t4: Ticks,
    pub device: u16,
    pub duplicates: bool,
    pub host: bool,
}

impl MessagePanel {
    fn in_ticks(self) -> Terms
        ensures { result ≡ terms_of self }
    {
        Terms {
            t3: self.t3.ticks(),
            t4: self.t4.ticks(),
            device: self.device,
            duplicates: self.duplicates == 1,
            host: self.host,
        }
    }

    // The terms that these settings are, if each is in its range.
    #[tactic(auto, unfolding(crate::specs::Terms::agreed_of, crate::specs::Terms::message_panel_in_range))]
    pub fn terms(self) -> Option<Terms>
        ensures { result ≡ agreed_of self }
    {
        let times = self.t3.in_range() && self.t4.in_range();
        if times && self.device <= 32767 && self.duplicates <= 1 {
            Some(self.in_ticks())
        } else {
            None
        }
    }
}

impl Terms {
    // Whether the terms of a state are in the ranges of docs/STATE.md.
    #[tactic(auto, unfolding(crate::specs::Terms::terms_in_range))]
    pub fn in_range(self) -> bool
        ensures { result ≡ terms_in_range self }
    {
        between(10, self.t3.count(), 1200)
            && between(10, self.t4.count(), 1200)
            && self.device <= 32767
    }
}
