// What refuses the list of a moment: causes 4 to 7 and 11.
ghost use Rattle.std.specs.Prelude.{◌≡◌, ◌≤◌, length, OnOk};
ghost use Rattle.moments.specs.Rules.{barred_at, breaks, bars, barred_by, refusal_at, checked, few_checked, list_checked};

use faults::{Cause, End, Fault};
use pair::event::Event;

/// What is asked of every event of a list.
// The rules are these four, and each `match` below says of each in a line what it does: a trait or closures would say the same in more.
#[derive(Clone, Copy)]
pub enum Rule {
    /// Its end is 0 or 1.
    EndExists,
    /// Its other numbers are in range.
    NumbersFit,
    /// It does not set DSR of an end whose DSR an earlier event sets.
    DsrOnce,
    /// It does not write at an end that recovers, or that an earlier event resets.
    EndRecovered,
}

/// For each end, whether one more event of the kind that a rule looks at breaks it there. At first it does so at neither.
#[derive(Clone, Copy, Default)]
pub struct Barred {
    pub a: bool,
    pub b: bool,
}

impl Barred {
    // Whether it does so at the end of this number.
    fn at(self, end: u32) -> bool
        ensures { result ≡ barred_at end self }
    {
        match end {
            0 => self.a,
            1 => self.b,
            _ => false,
        }
    }
}

impl Rule {
    // Whether an event breaks the rule.
    fn is_broken(self, barred: Barred, event: Event) -> bool
        ensures { result ≡ breaks self barred event }
    {
        match self {
            Rule::EndExists => event.end > 1,
            Rule::NumbersFit => {
                event.kind > 1 || event.value > 1 || event.kind == 1 && event.address > 31
            }
            Rule::DsrOnce => event.kind == 0 && barred.at(event.end),
            Rule::EndRecovered => event.kind == 1 && barred.at(event.end),
        }
    }

    // What an event that keeps the rule bars for those after it: a second setting of its end's DSR, and after a reset every write at
    // its end.
    fn bars(self, event: Event) -> bool
        ensures { result ≡ bars self event }
    {
        match self {
            Rule::EndExists | Rule::NumbersFit => false,
            Rule::DsrOnce => event.kind == 0,
            Rule::EndRecovered => event.kind == 1 && event.address == 31,
        }
    }

    fn barred_by(self, barred: Barred, event: Event) -> Barred
        ensures { result ≡ barred_by self barred event }
    {
        let bars = self.bars(event);
        Barred {
            a: barred.a || bars && event.end == 0,
            b: barred.b || bars && event.end == 1,
        }
    }

    // The refusal of the event at an index that breaks the rule. An index that needs more than 32 bits shows as the largest that they hold.
    fn refusal(self, index: usize, event: Event) -> Fault
        ensures { result ≡ refusal_at self index event }
    {
        let index = u32::try_from(index).unwrap_or(u32::MAX);
        let end = End::try_from(event.end).ok();
        match self {
            Rule::EndExists => Cause::NoSuchEnd.at(index, None),
            Rule::NumbersFit => Cause::OutOfRange.at(index, end),
            Rule::DsrOnce => Cause::RepeatedDsr.at(index, end),
            Rule::EndRecovered => Cause::Recovering.at(index, end),
        }
    }

    /// Refuses the first event that breaks the rule.
    pub fn check(self, start: Barred, events: &[Event]) -> Result<(), Fault>
        ensures { result ≡ checked self start events.now }
    {
        let mut barred = start;
        for (index, event) in events.iter().enumerate() {
            if self.is_broken(barred, *event) {
                return Err(self.refusal(index, *event));
            }
            barred = self.barred_by(barred, *event);
        }
        Ok(())
    }
}

// A moment has at most 32 events: the 33rd is at fault.
fn check_count(events: &[Event]) -> Result<(), Fault>
    ensures answer { result ≡ few_checked events.now }
    ensures few { OnOk result (length events.now ≤ 32) }
{
    match events.get(32) {
        Some(event) => Err(Cause::TooManyEvents.at(32, End::try_from(event.end).ok())),
        None => Ok(()),
    }
}

/// What can be said of a list without its bench: causes 4 to 7, 4 over the whole list before 5.
// That an accepted list is short is a clause here and where it is served, and no fact of a type: the list is the caller's slice.
pub fn check_list(events: &[Event]) -> Result<(), Fault>
    ensures answer { result ≡ list_checked events.now }
    ensures few { OnOk result (length events.now ≤ 32) }
{
    let none = Barred::default();
    Rule::EndExists.check(none, events)?;
    Rule::NumbersFit.check(none, events)?;
    check_count(events)?;
    Rule::DsrOnce.check(none, events)
}
