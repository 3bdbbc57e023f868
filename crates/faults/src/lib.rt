// Why a call is refused, and where.
#![tactic(auto)]

ghost use Rattle.std.specs.Prelude.{◌≡◌, Some};
ghost use Rattle.faults.specs.Faults.{end_number, end_numbered, cause_number, cause_text, place_end, end_text, at_place, unplaced, sentence};

use std::fmt;

/// One of the two ends of a bench.
#[derive(Clone, Copy, Debug, PartialEq, Eq)]
pub enum End {
    A = 0,
    B = 1,
}

impl From<End> for u32 {
    ghost from_gives = { λ end number. number ≡ end_number end };

    fn from(end: End) -> u32 {
        end as u32
    }
}

impl TryFrom<u32> for End {
    type Error = Cause;

    ghost try_from_gives = { λ number end. end ≡ end_numbered number };

    fn try_from(number: u32) -> Result<End, Cause> {
        match number {
            0 => Ok(End::A),
            1 => Ok(End::B),
            _ => Err(Cause::NoSuchEnd),
        }
    }
}

/// The causes of a refusal, in the order in which they are tested, by their numbers.
#[derive(Clone, Copy, Debug, PartialEq, Eq)]
pub enum Cause {
    LineTooLong = 1,
    UnknownCommand = 2,
    BadFields = 3,
    NoSuchEnd = 4,
    OutOfRange = 5,
    TooManyEvents = 6,
    RepeatedDsr = 7,
    CableNotClear = 8,
    NotOpen = 9,
    ClockLimit = 10,
    Recovering = 11,
    BufferNotEnabled = 12,
    BufferFull = 13,
    NothingReceived = 14,
}

impl From<Cause> for u32 {
    ghost from_gives = { λ cause number. number ≡ cause_number cause };

    fn from(cause: Cause) -> u32 {
        cause as u32
    }
}

impl fmt::Display for Cause {
    ghost output = { λ cause. Some (cause_text cause) };

    fn fmt<W: fmt::Write>(&self, f: &mut fmt::Formatter<W>) -> fmt::Result {
        f.write_str(self.text())
    }
}

impl Cause {
    /// A cause in words.
    pub fn text(self) -> &'static str
        ensures { result.now ≡ cause_text self }
    {
        match self {
            Cause::LineTooLong => "the line is longer than 80 bytes",
            Cause::UnknownCommand => "the line begins with none of the letters O, M, P, G, L and T",
            Cause::BadFields => "the fields are too few, too many, badly written or too large",
            Cause::NoSuchEnd => "the end is neither 0 nor 1",
            Cause::OutOfRange => "a number, a length or a list is outside its range",
            Cause::TooManyEvents => "the moment has more than 32 events",
            Cause::RepeatedDsr => "the moment sets DSR of one end twice",
            Cause::CableNotClear => "a space waits in the cable",
            Cause::NotOpen => "the bench is not open",
            Cause::ClockLimit => "the clock would pass 4000000000",
            Cause::Recovering => "the end was reset and may not be read or written yet",
            Cause::BufferNotEnabled =>
                "a load flag or BRKON is set, so the transmit buffer takes no character",
            Cause::BufferFull => "the transmit buffer is full",
            Cause::NothingReceived => "no received character waits",
        }
    }

    /// The refusal by this cause of the event at an index, at an end.
    pub fn at(self, index: u32, end: Option<End>) -> Fault
        ensures { result ≡ at_place index end self }
    {
        Fault {
            cause: self,
            place: Place { index, end },
        }
    }
}

/// Where a call is at fault: the index of the event, from 0, and the end. Where no lawful end is concerned there is none.
/// The index is 0 where no event is at fault, and no `Option`: a place is two numbers in every answer and to a C host.
#[derive(Clone, Copy, Debug, PartialEq, Eq)]
pub struct Place {
    pub index: u32,
    pub end: Option<End>,
}

impl Place {
    /// The end as a number: 0, 1, or 2 for none.
    pub fn end_number(self) -> u32
        ensures { result ≡ place_end self }
    {
        self.end.map_or(2, u32::from)
    }

    // The end in words. That there is none is said too, so a `Display` of `End` alone would not do.
    fn end_text(self) -> &'static str
        ensures { result.now ≡ end_text self.end }
    {
        match self.end {
            Some(End::A) => "end A",
            Some(End::B) => "end B",
            None => "no end",
        }
    }
}

/// A refusal.
#[derive(Clone, Copy, Debug, PartialEq, Eq)]
pub struct Fault {
    pub cause: Cause,
    pub place: Place,
}

/// A refusal that concerns no event and no end.
impl From<Cause> for Fault {
    ghost from_gives = { λ cause fault. fault ≡ unplaced cause };

    fn from(cause: Cause) -> Fault {
        cause.at(0, None)
    }
}

impl fmt::Display for Fault {
    ghost output = { λ f. Some (sentence f) };

    fn fmt<W: fmt::Write>(&self, f: &mut fmt::Formatter<W>) -> fmt::Result {
        let Fault { cause, place } = *self;
        let number = u32::from(cause);
        let index = place.index;
        let end = place.end_text();
        write!(f, "{cause} (cause {number}, event index {index}, {end})")
    }
}
