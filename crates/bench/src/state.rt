// What a host sees of a bench at any time.
ghost use Rattle.std.specs.Prelude.{◌≡◌, ◌≤◌, true};
ghost use Rattle.acc.specs.Sound.{sound};
ghost use Rattle.acc.specs.Calls.{pins_of};
ghost use Rattle.pair.specs.Bench.{chip, last_clock};

use crate::Bench;
use acc::chip::Pins;
use cable::interface::Cable;
use faults::End;

impl<C: Cable> Bench<C> {
    /// The pins of an end that others see.
    pub fn pins(&self, end: End) -> Pins
        ensures pins { result ≡ pins_of (chip end self.now.meaning) }
        ensures sound { sound (chip end self.now.meaning) ≡ true }
    {
        self.chips.at(end).pins()
    }

    /// The clock of the bench.
    pub fn clock(&self) -> u32
        ensures clock { result ≡ self.now.meaning.clock }
        ensures in_time { result ≤ last_clock }
    {
        self.clock
    }

    /// Whether the bench was opened.
    pub fn is_open(&self) -> bool
        ensures open { result ≡ self.now.meaning.is_open }
        ensures cable { C.meaning self.now.cable ≡ self.now.meaning.channels }
    {
        self.is_open
    }
}
