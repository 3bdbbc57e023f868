// The φ clock of a bench, and moments without events.
ghost use Rattle.std.specs.Prelude.{◌≡◌, ◌+◌, ◌<◌, ◌≤◌};
ghost use Rattle.pair.specs.Bench.{last_clock, sent_by, clocked};
ghost use Rattle.pair.specs.Calls.{moves, moments_reply, moments_done};

use crate::Bench;
use acc::chip::Acc;
use cable::direction::Direction;
use cable::interface::Cable;
use faults::{Cause, Fault};

// What a chip puts on the cable.
fn sent_by(chip: &Acc) -> (bool, bool)
    ensures { result ≡ sent_by chip.now }
{
    (chip.transmitter.xout, chip.lines.rts)
}

impl<C: Cable> Bench<C> {
    // One φ clock: the cable steps once each way with the lines that stand, and each chip is handed what comes out at its end.
    pub(crate) fn clock_once(&mut self)
        requires { self.old.meaning.clock < last_clock }
        ensures { self.new.meaning ≡ clocked self.old.meaning }
    {
        let to_b = self.cable.step(Direction::TowardB, sent_by(&self.chips.a));
        let to_a = self.cable.step(Direction::TowardA, sent_by(&self.chips.b));
        self.chips.a.clock(to_a.0, to_a.1);
        self.chips.b.clock(to_b.0, to_b.1);
        self.clock += 1;
    }

    // Moments without events, one after the other.
    #[tactic(auto, using(crate::proofs::Served::clocks))]
    fn run_on(&mut self, n: u32)
        requires { self.old.meaning.clock + n ≤ last_clock }
        ensures { self.new.meaning ≡ moves n self.old.meaning }
    {
        for _ in 0..n {
            self.clock_once();
        }
    }

    /// Moments without events, all of them or none. Refused by causes 5, 9 and 10.
    pub fn moments(&mut self, n: u32) -> Result<(), Fault>
        ensures answer { result ≡ moments_reply n self.old.meaning }
        ensures state { self.new.meaning ≡ moments_done n self.old.meaning }
    {
        if n > 100000 {
            return Err(Fault::from(Cause::OutOfRange));
        }
        if !self.is_open {
            return Err(Fault::from(Cause::NotOpen));
        }
        if self.clock > 4000000000 - n {
            return Err(Fault::from(Cause::ClockLimit));
        }
        self.run_on(n);
        Ok(())
    }
}
