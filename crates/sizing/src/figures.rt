// Figures that people read: times, rates and counts at a clock of so many megahertz.
ghost use Rattle.std.specs.Prelude.{◌≡◌, ◌+◌, ◌*◌, ◌/◌, ◌<◌, ◌≤◌, Some};
ghost use Rattle.timing.specs.Counts.{q};
ghost use Rattle.sizing.specs.Figures.{megahertz, rate_at, microseconds_at, per_minute_at, decimals, point_two};

use std::fmt;
use timing::counts::{Divider, PhiCount};

/// The frequency of φ.
#[derive(Clone, Copy, Debug, PartialEq, Eq)]
pub enum SystemClock {
    Mhz3 = 3,
    Mhz4 = 4,
}

impl SystemClock {
    /// The clock at which an internal clock takes one microsecond, as the chip's makers give their figures.
    pub fn for_one_microsecond(divider: Divider) -> SystemClock
        ensures { megahertz result ≡ q divider }
    {
        match divider {
            Divider::By3 => SystemClock::Mhz3,
            Divider::By4 => SystemClock::Mhz4,
        }
    }

    /// φ clocks in a microsecond.
    pub fn megahertz(self) -> u32
        ensures { result ≡ megahertz self }
    {
        self as u32
    }
}

/// A figure in hundredths, shown with two decimals.
#[derive(Clone, Copy, Debug, PartialEq, Eq)]
pub struct Hundredths(pub u64);

impl Hundredths {
    // What stands behind the point.
    fn decimals(self) -> u64
        ensures { result ≡ decimals self.0 }
    {
        self.0 % 100
    }
}

impl fmt::Display for Hundredths {
    ghost output = { λ x. Some (point_two x.0) };

    fn fmt<W: fmt::Write>(&self, f: &mut fmt::Formatter<W>) -> fmt::Result {
        let decimals = self.decimals();
        write!(f, "{}.{decimals:02}", self.0 / 100)
    }
}

/// How often a second something of so many φ clocks happens, to the nearest hundredth; a half goes up.
pub(crate) fn rate_of(clock: SystemClock, each: PhiCount) -> Hundredths
    requires some { 0 < each.0 }
    ensures { result.0 ≡ rate_at clock each.0 }
{
    let second = 1000000 * clock.megahertz() as u64;
    Hundredths((100 * second + each.0 / 2) / each.0)
}

/// Microseconds of so many φ clocks, rounded up to a hundredth, so that no bound is shown too small.
pub(crate) fn microseconds_of(clock: SystemClock, clocks: PhiCount) -> Hundredths
    requires { clocks.0 ≤ 1000000 }
    ensures { result.0 ≡ microseconds_at clock clocks.0 }
{
    let mhz = clock.megahertz() as u64;
    Hundredths((100 * clocks.0 + mhz - 1) / mhz)
}

/// How many whole times in a minute something of so many φ clocks fits.
pub(crate) fn per_minute_of(clock: SystemClock, each: PhiCount) -> u64
    requires { 0 < each.0 }
    ensures { result ≡ per_minute_at clock each.0 }
{
    60 * 1000000 * clock.megahertz() as u64 / each.0
}
