// A bench begins, is opened, and is taken apart.
ghost use Rattle.std.specs.Prelude.{◌≡◌, ◌≤◌, true, is_ok};
ghost use Rattle.pair.specs.Calls.{opening_fits, registers_of, opened, open_answer, open_of};
ghost use Rattle.pair.specs.Consequences.{Transmits};
ghost use Rattle.bench.specs.View.{unopened};

use crate::Bench;
use acc::chip::{Acc, Registers};
use cable::interface::Cable;
use faults::{Cause, Fault};
use moments::chips::Chips;
use pair::opening::Opening;

// The numbers of open are in range.
fn opening_fits(opening: Opening) -> bool
    ensures { result ≡ opening_fits opening }
{
    opening.start <= 4000000000
        && opening.control <= 255
        && opening.x <= 2047
        && opening.r <= 2047
        && opening.interval <= 255
}

// The registers of a chip that sends at one rate and receives at another.
fn registers(opening: Opening, send: u32, receive: u32) -> Registers
    requires fits { opening_fits opening ≡ true }
    requires send { send ≤ 2047 }
    requires receive { receive ≤ 2047 }
    ensures { result ≡ registers_of opening send receive }
{
    Registers {
        control: opening.control as u8,
        interval: opening.interval as u8,
        receive_rate: receive as u16,
        transmit_rate: send as u16,
    }
}

impl<C: Cable> Bench<C> {
    /// A bench that is not open yet.
    pub fn new(cable: C) -> Bench<C>
        ensures { result.meaning ≡ unopened (C.meaning cable) }
    {
        let chip = Acc::opened(Registers::default());
        Bench {
            cable,
            chips: Chips { a: chip, b: chip },
            clock: 0,
            is_open: false,
        }
    }

    /// Takes the bench apart, and gives its cable back.
    pub fn into_cable(self) -> C
        ensures cable { result ≡ self.cable }
        ensures meaning { C.meaning result ≡ self.meaning.channels }
    {
        let Bench {
            cable,
            chips: _,
            clock: _,
            is_open: _,
        } = self;
        cable
    }

    // Both chips start afresh, A sending at rate x and receiving at r, B the reverse, and the clock at its start. The cable is kept.
    fn start(&mut self, opening: Opening)
        requires { opening_fits opening ≡ true }
        ensures { self.new.meaning ≡ opened opening self.old.meaning }
    {
        self.chips = Chips {
            a: Acc::opened(registers(opening, opening.x, opening.r)),
            b: Acc::opened(registers(opening, opening.r, opening.x)),
        };
        self.clock = opening.start;
        self.is_open = true;
    }

    /// Opens the bench, whether or not it was open: both chips start afresh with one control value and one interval, A sends at rate x
    /// and receives at r, B the reverse. The cable is kept. Refused by cause 5, and by 8 while a space waits in the cable.
    ///
    /// From here on, whatever loads, takes and moments follow, what is stored at either end is what was loaded at the other, in order and in
    /// time, changed exactly where the cable inverted a sample.
    pub fn open(&mut self, opening: Opening) -> Result<(), Fault>
        ensures answer { result ≡ open_answer opening self.old.meaning }
        ensures state { self.new.meaning ≡ open_of opening self.old.meaning }
        ensures transmits { is_ok result ≡ true → Transmits opening self.new.meaning }
    {
        if !opening_fits(opening) {
            return Err(Fault::from(Cause::OutOfRange));
        }
        if !self.cable.clear() {
            return Err(Fault::from(Cause::CableNotClear));
        }
        self.start(opening);
        Ok(())
    }
}
