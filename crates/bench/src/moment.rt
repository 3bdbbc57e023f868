// One moment with its events.
ghost use Rattle.std.specs.Prelude.{◌≡◌, ◌<◌, ◌≤◌, true, length, is_ok, OnOk};
ghost use Rattle.pair.specs.Bench.{last_clock};
ghost use Rattle.pair.specs.Calls.{moment_reply, moment_done, list_after};
ghost use Rattle.pair.specs.Moment.{moved, served_list};
ghost use Rattle.pair.specs.Ranks.{OverrunsShow};
ghost use Rattle.moments.specs.Rules.{shown};
ghost use Rattle.bench.specs.Moment.{ready, recoveries};

use crate::Bench;
use cable::interface::Cable;
use faults::{Cause, End, Fault};
use moments::ranks::Rank;
use moments::rules::{Barred, Rule, check_list};
use pair::event::Event;

impl<C: Cable> Bench<C> {
    // The four ranks of a moment that is accepted. Each numbers its events from where the one before it ended.
    #[tactic(auto, using(crate::proofs::Served::ranks))]
    fn serve(&mut self, events: &mut [Event])
        requires few { length events.old ≤ 32 }
        requires early { self.old.meaning.clock < last_clock }
        ensures state { self.new.meaning ≡ moved events.old self.old.meaning }
        ensures list { events.new ≡ served_list events.old }
    {
        let next = Rank::DsrSettings.serve(&mut self.chips, events, 1);
        self.clock_once();
        let next = Rank::WritesAt(End::A).serve(&mut self.chips, events, next);
        Rank::WritesAt(End::B).serve(&mut self.chips, events, next);
    }

    // Causes 9 and 10 of a moment.
    fn check_ready(&self) -> Result<(), Fault>
        ensures answer { result ≡ ready self.now.meaning }
        ensures early { OnOk result (self.now.meaning.clock < last_clock) }
    {
        if !self.is_open {
            return Err(Fault::from(Cause::NotOpen));
        }
        if self.clock >= 4000000000 {
            return Err(Fault::from(Cause::ClockLimit));
        }
        Ok(())
    }

    // The ends that still recover once this clock has lowered their counts: a write at them is refused.
    fn recoveries(&self) -> Barred
        ensures { result ≡ recoveries self.now.meaning }
    {
        Barred {
            a: self.chips.a.recovery.0 > 1,
            b: self.chips.b.recovery.0 > 1,
        }
    }

    // Everything that refuses a moment is asked before anything changes.
    #[tactic(auto, using(crate::proofs::Refused::same_reply))]
    fn check(&self, events: &[Event]) -> Result<(), Fault>
        ensures answer { result ≡ shown (moment_reply events.now self.now.meaning) }
        ensures few { OnOk result (length events.now ≤ 32) }
        ensures early { OnOk result (self.now.meaning.clock < last_clock) }
    {
        check_list(events)?;
        self.check_ready()?;
        Rule::EndRecovered.check(self.recoveries(), events)
    }

    /// One moment with its events. An accepted one writes into each event the number at which it was served. Refused by causes 4 to 7
    /// and 9 to 11. An index that needs more than 32 bits shows as 4,294,967,295.
    ///
    /// The receivers are served before the writes, so a write cannot hide an overrun of this very clock.
    #[tactic(auto, using(pair::proofs::Serving::overrun_shows))]
    pub fn moment(&mut self, events: &mut [Event]) -> Result<(), Fault>
        ensures answer { result ≡ shown (moment_reply events.old self.old.meaning) }
        ensures state { self.new.meaning ≡ moment_done events.old self.old.meaning }
        ensures list { events.new ≡ list_after result events.old }
        ensures overruns { is_ok result ≡ true → OverrunsShow events.old self.old.meaning self.new.meaning }
    {
        self.check(events)?;
        self.serve(events);
        Ok(())
    }
}
