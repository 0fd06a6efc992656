// From the settings that are handed to a start to those that the unit goes by (01, "Settings and time").
ghost use Rattle.std.specs.Prelude.{◌≡◌, ◌≤◌};
ghost use Rattle.link.specs.Setup.{agreed_by, messages_of, no_settings, panel_of, settings_in_range, ranged_of};
ghost use Rattle.settings.specs.Terms.{agreed_of};

use link::{Settings, Setup};
use settings::{Fifths, Limits, MessagePanel, Panel, Seconds, Tenths, Terms};

fn panel(setup: Setup) -> Panel
    requires { setup.rty ≤ 31 }
    ensures { result ≡ panel_of setup }
{
    Panel {
        t1: setup.t1,
        t2: setup.t2,
        rty: setup.rty as u8,
        master: !setup.host,
    }
}

fn messages(setup: Setup) -> MessagePanel
    ensures { result ≡ messages_of setup }
{
    MessagePanel {
        t3: setup.t3,
        t4: setup.t4,
        device: setup.device,
        duplicates: setup.duplicates,
        host: setup.host,
    }
}

fn agreed(setup: Setup, limits: Limits) -> Option<Settings>
    ensures { result ≡ agreed_by (agreed_of (messages_of setup)) limits }
{
    let terms = messages(setup).terms()?;
    Some(Settings { limits, terms })
}

// Refusal 4: "setting out of range".
#[tactic(auto, unfolding(link::specs::Setup::ranged_of))]
pub(crate) fn ranged(setup: Setup) -> Option<Settings>
    ensures { result ≡ ranged_of setup }
{
    if 31 < setup.rty {
        return None;
    }
    let limits = panel(setup).limits()?;
    agreed(setup, limits)
}

// Those of no unit: none of T1 to T4 is in its range.
pub(crate) fn no_settings() -> Settings
    ensures { result ≡ no_settings }
{
    Settings {
        limits: Limits {
            t1: Tenths(0).ticks(),
            t2: Fifths(0).ticks(),
            rty: 0,
            master: false,
        },
        terms: Terms {
            t3: Seconds(0).ticks(),
            t4: Seconds(0).ticks(),
            device: 0,
            duplicates: false,
            host: false,
        },
    }
}

#[tactic(auto, unfolding(link::specs::Setup::settings_in_range))]
pub(crate) fn settings_in_range(settings: Settings) -> bool
    ensures { result ≡ settings_in_range settings }
{
    settings.limits.in_range() && settings.terms.in_range()
}
