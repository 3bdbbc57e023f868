// The chips of the two ends.
ghost use Rattle.std.specs.Prelude.{◌≡◌};
ghost use Rattle.std.specs.Borrow.{sem};
ghost use Rattle.moments.specs.Chips.{chip_at, lends_chip};

use acc::chip::Acc;
use faults::End;

/// The chips of the two ends.
// A cable keeps what stands once for each of its directions in the same way. One struct for both would need a trait of its keys.
#[derive(Clone, Copy)]
pub struct Chips {
    pub a: Acc,
    pub b: Acc,
}

impl Chips {
    /// The chip of an end.
    pub fn at(&self, end: End) -> &Acc
        ensures { result.now ≡ chip_at end self.now }
    {
        match end {
            End::A => &self.a,
            End::B => &self.b,
        }
    }

    /// The chip of an end, to be changed. The other chip stays as it is.
    pub fn at_mut(&mut self, end: End) -> &mut Acc
        ensures* writes_back { sem 𝓛 (lends_chip self.entry end result) }
        ensures value { result.now ≡ chip_at end self.old }
    {
        match end {
            End::A => &mut self.a,
            End::B => &mut self.b,
        }
    }
}
