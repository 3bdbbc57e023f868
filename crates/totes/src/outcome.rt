// What came of the characters and labels of a run.
ghost use Rattle.std.specs.Prelude.{◌≡◌, Some};
ghost use Rattle.totes.specs.Outcome.{damaged, is_damaged, count_fate};
ghost use Rattle.totes.specs.Words.{kind_text, flags_text, loss_text};

use crate::position::Position;
use std::fmt;

/// What came of a label: it is lost if one of its characters was, else damaged if one of them was, else whole.
#[derive(Clone, Copy, Debug, PartialEq, Eq)]
pub enum Fate {
    Whole,
    Damaged,
    Lost,
}

impl Fate {
    /// After a character of the label was damaged: a label that has lost one stays lost.
    pub(crate) fn damaged(self) -> Fate
        ensures { result ≡ damaged self }
    {
        match self {
            Fate::Whole | Fate::Damaged => Fate::Damaged,
            Fate::Lost => Fate::Lost,
        }
    }

    /// How many of the labels have this fate.
    #[tactic(auto, using(crate::proofs::Counting::count_fate_is))]
    pub(crate) fn count(self, labels: &[Fate]) -> usize
        ensures { result ≡ count_fate self labels.now }
    {
        labels.iter().filter(|fate| **fate == self).count()
    }
}

/// Whether a character that was read is damaged, by its code as it was sent and as it was read, and by RPER and RFER.
pub(crate) fn is_damaged(sent: u32, read: u32, rper: bool, rfer: bool) -> bool
    ensures { result ≡ is_damaged sent read rper rfer }
{
    sent != read || rper || rfer
}

/// How a character was lost.
#[derive(Clone, Copy, Debug, PartialEq, Eq)]
pub enum LossKind {
    /// Another was stored before the board had read it.
    Overwritten,
    /// It was stored in the very moment in which the board acknowledged the one before it.
    Missed,
    /// The run ended before the board had read it.
    NeverRead,
}

impl fmt::Display for LossKind {
    ghost output = { λ kind. Some (kind_text kind) };

    fn fmt<W: fmt::Write>(&self, f: &mut fmt::Formatter<W>) -> fmt::Result {
        f.write_str(match self {
            LossKind::Overwritten => "was overwritten",
            LossKind::Missed =>
                "was missed: bit 18 was written on the clock of its stop sample, as event 1",
            LossKind::NeverRead => "was never read",
        })
    }
}

/// The receiver's flags at end B.
#[derive(Clone, Copy, Debug, PartialEq, Eq)]
pub struct Flags {
    pub rbrl: bool,
    pub rfer: bool,
    pub rover: bool,
    pub rper: bool,
}

impl fmt::Display for Flags {
    ghost output = { λ flags. Some (flags_text flags) };

    fn fmt<W: fmt::Write>(&self, f: &mut fmt::Formatter<W>) -> fmt::Result {
        let [rbrl, rfer, rover, rper] = [self.rbrl, self.rfer, self.rover, self.rper].map(u8::from);
        write!(f, "RBRL {rbrl}, RFER {rfer}, ROVER {rover}, RPER {rper}")
    }
}

/// A loss: the character, how it was lost, and the clock and the flags that the moment left in which it was lost.
#[derive(Clone, Copy, Debug, PartialEq, Eq)]
pub struct Loss {
    pub clock: u32,
    pub position: Position,
    pub kind: LossKind,
    pub flags: Flags,
}

impl fmt::Display for Loss {
    ghost output = { λ loss. Some (loss_text loss) };

    fn fmt<W: fmt::Write>(&self, f: &mut fmt::Formatter<W>) -> fmt::Result {
        let Loss {
            clock,
            position,
            kind,
            flags,
        } = *self;
        write!(f, "clock {clock}, {position} {kind}; {flags}")
    }
}

/// What came of the labels of a run, the moments that it had, and its first loss.
#[derive(Clone, Copy)]
pub struct Tally {
    pub whole: usize,
    pub lost: usize,
    pub damaged: usize,
    pub moments: u32,
    pub first_loss: Option<Loss>,
}
