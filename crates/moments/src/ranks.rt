// How the events of a moment are served: rank by rank, in list order, each getting its number in the list.
ghost use Rattle.std.specs.Prelude.{◌≡◌, ◌+◌, ◌^◌, ◌<◌, ◌≤◌, length, true};
ghost use Rattle.faults.specs.declared.End.TheVariants as end;
ghost use Rattle.acc.specs.Outputs.{write_of};
ghost use Rattle.acc.specs.Sound.{sound};
ghost use Rattle.pair.specs.Moment.{how_many, number_each};
ghost use Rattle.moments.specs.Ranks.{belongs, touched, served_at, serving, turn, serve_one};

use crate::chips::Chips;
use acc::chip::Acc;
use faults::End;
use pair::event::Event;

/// The events that are served together: DSR settings before the φ clock, and after it the writes at one end.
// Which events these are and what one of them does is a line of a `match` each: a trait or closures would say the same in more.
#[derive(Clone, Copy)]
pub enum Rank {
    DsrSettings,
    WritesAt(End),
}

impl Rank {
    // Whether an event is served in this rank.
    fn serves(self, event: Event) -> bool
        ensures { result ≡ belongs self event }
    {
        match self {
            Rank::DsrSettings => event.kind == 0,
            Rank::WritesAt(end) => event.kind == 1 && event.end == u32::from(end),
        }
    }

    // What an event of this rank does to the two chips.
    fn apply(self, chips: &mut Chips, event: Event)
        ensures a { chips.new.a ≡ touched self end.A event chips.old.a }
        ensures b { chips.new.b ≡ touched self end.B event chips.old.b }
        ensures sound_a { sound chips.old.a ≡ true → sound chips.new.a ≡ true }
        ensures sound_b { sound chips.old.b ≡ true → sound chips.new.b ≡ true }
    {
        let level = event.value == 1;
        match self {
            Rank::DsrSettings => {
                if let Ok(end) = End::try_from(event.end) {
                    chips.at_mut(end).set_dsr(level);
                }
            }
            Rank::WritesAt(end) => write_output(chips.at_mut(end), event.address, level),
        }
    }

    // An event of this rank is served as number n, and the next one comes after it.
    fn serve_event(self, chips: &mut Chips, event: &mut Event, n: u32) -> u32
        requires fits { n + 1 < 2 ^ 32 }
        ensures turn { turn (serving result chips.new.a chips.new.b) event.new ≡ serve_one self (serving n chips.old.a chips.old.b) event.old }
        ensures most { result ≤ n + 1 }
        ensures sound_a { sound chips.old.a ≡ true → sound chips.new.a ≡ true }
        ensures sound_b { sound chips.old.b ≡ true → sound chips.new.b ≡ true }
    {
        if !self.serves(*event) {
            return n;
        }
        self.apply(chips, *event);
        event.served = n;
        n + 1
    }

    /// Serves the events of this rank in list order, with the numbers from `from` on. Answers the number of the next.
    pub fn serve(self, chips: &mut Chips, events: &mut [Event], from: u32) -> u32
        requires fits { from + length events.old < 2 ^ 32 }
        ensures a { chips.new.a ≡ served_at self end.A events.old chips.old.a }
        ensures b { chips.new.b ≡ served_at self end.B events.old chips.old.b }
        ensures list { events.new ≡ number_each (belongs self) from events.old }
        ensures next { result ≡ from + how_many (belongs self) events.old }
        ensures most { result ≤ from + length events.old }
        ensures sound_a { sound chips.old.a ≡ true → sound chips.new.a ≡ true }
        ensures sound_b { sound chips.old.b ≡ true → sound chips.new.b ≡ true }
    {
        // Each rank goes over the lent list by its index, and writes into each event that it serves.
        let mut n = from;
        for i in 0..events.len() {
            n = self.serve_event(chips, &mut events[i], n);
        }
        n
    }
}

// A write to an output bit. Addresses above 31 have none.
#[tactic(auto, unfolding(acc::specs::Outputs::write_of))]
fn write_output(chip: &mut Acc, address: u32, v: bool)
    ensures step { chip.new ≡ write_of address v chip.old }
    ensures sound { sound chip.old ≡ true → sound chip.new ≡ true }
{
    if address <= 31 {
        chip.write(address as u16, v);
    }
}
