// One φ clock.
ghost use Rattle.std.specs.Prelude.{◌≡◌, true};
ghost use Rattle.acc.specs.Sound.{parts_sound, sound};
ghost use Rattle.acc.specs.Clock.{clock_of, serve_of, begun_clock, fires, divided, compared, rts_ended};

use super::Acc;
use timing::counts::PhiCount;
use timing::registers::Control;

impl Acc {
    /// One φ clock, at which the line has this level and the other board's RTS this state.
    #[tactic(auto, unfolding(crate::specs::Clock::clock_of, crate::specs::Sound::sound))]
    pub fn clock(&mut self, rin: bool, cts: bool)
        requires sound { sound self.old ≡ true }
        ensures step { self.new ≡ clock_of rin cts self.old }
        ensures sound { sound self.new ≡ true }
    {
        self.begin_clock(rin, cts);
        if self.divide() {
            self.serve();
        }
    }

    // The lines are taken, and a recovery count above 0 falls by one.
    fn begin_clock(&mut self, rin: bool, cts: bool)
        ensures { self.new ≡ begun_clock rin cts self.old }
    {
        if self.modes.tstmd {
            self.lines.cts = self.lines.rts;
            self.lines.dsr = true;
            self.lines.rin = self.transmitter.xout;
        } else {
            self.lines.cts = cts;
            self.lines.dsr = self.lines.dsr_setting;
            self.lines.rin = rin;
        }
        self.recovery.0 = self.recovery.0.saturating_sub(1);
    }

    // The divider: whether this is an internal clock.
    fn divide(&mut self) -> bool
        requires sound { parts_sound self.old ≡ true }
        ensures fires { result ≡ fires self.old }
        ensures step { self.new ≡ divided self.old }
        ensures sound { parts_sound self.new ≡ true }
    {
        let q = Control::from(self.registers.control).divider.q();
        self.divider.0 += 1;
        let fires = self.divider.0 >= q as u64;
        if fires {
            self.divider = PhiCount(0);
        }
        fires
    }

    // An internal clock.
    #[tactic(auto, unfolding(crate::specs::Clock::serve_of))]
    fn serve(&mut self)
        requires sound { parts_sound self.old ≡ true }
        ensures step { self.new ≡ serve_of self.old }
        ensures sound { parts_sound self.new ≡ true }
    {
        self.compare_status();
        self.timer.tick(self.registers.interval, self.modes.tstmd);
        self.receiver.tick(
            self.registers.control,
            self.registers.receive_rate,
            self.lines.rin,
        );
        self.transmitter.tick(
            self.registers.control,
            self.registers.transmit_rate,
            self.modes.brkon,
            self.lines.rts && self.lines.cts,
        );
        self.end_rts();
    }

    fn compare_status(&mut self)
        requires sound { parts_sound self.old ≡ true }
        ensures step { self.new ≡ compared self.old }
        ensures sound { parts_sound self.new ≡ true }
    {
        if self.lines.cts != self.lines.cts_before || self.lines.dsr != self.lines.dsr_before {
            self.lines.dsch = true;
        }
        self.lines.cts_before = self.lines.cts;
        self.lines.dsr_before = self.lines.dsr;
    }

    fn end_rts(&mut self)
        requires sound { parts_sound self.old ≡ true }
        ensures step { self.new ≡ rts_ended self.old }
        ensures sound { parts_sound self.new ≡ true }
    {
        let transmitter = &self.transmitter;
        if !self.lines.rtson && transmitter.xsre() && transmitter.xbre && !self.modes.brkon {
            self.lines.rts = false;
        }
    }
}
