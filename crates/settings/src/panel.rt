// The three kinds of panel steps, and what they are in ticks.
ghost use Rattle.std.specs.Prelude.{◌≡◌};
ghost use Rattle.settings.specs.Panel.{fifths_in_range, fifths_ticks, seconds_in_range, seconds_ticks, tenths_in_range, tenths_ticks};

// T1, in steps of 0.1 s.
#[derive(Clone, Copy)]
pub struct Tenths(pub u16);

// T2, in steps of 0.2 s.
#[derive(Clone, Copy)]
pub struct Fifths(pub u16);

// T3 and T4, in steps of 1 s.
#[derive(Clone, Copy)]
pub struct Seconds(pub u16);

// Ticks of 0.1 s. Only the conversions below make one.
#[derive(Clone, Copy)]
pub struct Ticks(u32);

// Whether `number` is one of `low` to `high`.
#[tactic(auto, unfolding(crate::specs::Panel::between))]
pub(crate) fn between(low: u32, number: u32, high: u32) -> bool
    ensures { result ≡ Rattle.settings.specs.Panel.between low number high }
{
    low <= number && number <= high
}

impl Tenths {
    pub fn ticks(self) -> Ticks
        ensures { result ≡ tenths_ticks self }
    {
        Ticks(u32::from(self.0))
    }

    pub fn in_range(self) -> bool
        ensures { result ≡ tenths_in_range self }
    {
        between(1, u32::from(self.0), 100)
    }
}

impl Fifths {
    pub fn ticks(self) -> Ticks
        ensures { result ≡ fifths_ticks self }
    {
        Ticks(u32::from(self.0) * 2)
    }

    pub fn in_range(self) -> bool
        ensures { result ≡ fifths_in_range self }
    {
        between(1, u32::from(self.0), 125)
    }
}

impl Seconds {
    pub fn ticks(self) -> Ticks
        ensures { result ≡ seconds_ticks self }
    {
        Ticks(u32::from(self.0) * 10)
    }

    pub fn in_range(self) -> bool
        ensures { result ≡ seconds_in_range self }
    {
        between(1, u32::from(self.0), 120)
    }
}

impl Ticks {
    // How many they are.
    pub fn count(self) -> u32
        ensures { result ≡ self.0 }
    {
        let Ticks(count) = self;
        count
    }
}
