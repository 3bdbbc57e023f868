// What is studied: the setting of both chips, the labels, and how the merge board spends its time.
ghost use Rattle.std.specs.Prelude.{◌≡◌, ◌*◌, ◌<◌, ◌≤◌, ◌&&◌, is_ok, MatchResult};
ghost use Rattle.faults.specs.declared.Cause.TheVariants.{OutOfRange};
ghost use Rattle.faults.specs.Faults.{unplaced};
ghost use Rattle.sizing.specs.Sizes.{character_clocks, line_fits};

use crate::moment::Moment;
use faults::{Cause, Fault};
use sizing::line::Line;

/// The registers of both chips, the characters of a label, the φ clocks of a character sent back to back, those from one look of the
/// merge board to the next, and those that it works on a label.
#[derive(Clone, Copy)]
pub struct Case {
    pub control: u32,
    pub rate: u32,
    pub length: u32,
    pub character: u32,
    pub look: u32,
    pub work: u32,
    // each range is a fact of its own, which a proof finds as it is; one record of all would say no more, and has to be opened
    ghost length_some: { 0 < length },
    ghost length_short: { length ≤ 32 },
    ghost character_short: { character ≤ 786432 },
    ghost look_some: { 0 < look },
    ghost look_short: { look ≤ 1000000 },
    ghost work_short: { work ≤ 1000000 },
}

fn multiply(clocks: u32, n: u32) -> u32
    requires clocks { clocks ≤ 2000000 }
    requires n { n ≤ 32 }
    ensures value { result ≡ clocks * n }
    ensures bound { result ≤ 64000000 }
{
    clocks * n
}

impl Case {
    ghost use Rattle.totes.specs.Times.{board_fits, label_clocks, slack_clocks, interval_of_row, moments_of_run, looks_before};

    // A label of at most 32 characters, a look at least every 1,000,000 φ clocks, and work of no more than that.
    fn board_fits(length: u32, look: u32, work: u32) -> bool
        ensures { result ≡ board_fits length look work }
    {
        length <= 32 && 1 <= look && look <= 1000000 && work <= 1000000
    }

    /// A case, or cause 5 where a number is outside its range: control 0 to 255, rate 0 to 2047, labels of 1 to 32 characters, a look
    /// every 1 to 1,000,000 φ clocks, and work of 0 to 1,000,000.
    pub fn new(control: u32, rate: u32, length: u32, look: u32, work: u32) -> Result<Case, Fault>
        ensures test { is_ok result ≡ line_fits control rate 0 length && board_fits length look work }
        ensures cases { MatchResult result (λ c. (c.control ≡ control) × (c.rate ≡ rate) × (c.length ≡ length) × (c.character ≡ character_clocks control rate) × (c.look ≡ look) × (c.work ≡ work)) (λ f. f ≡ unplaced OutOfRange) }
    {
        let line = Line::new(control, rate, 0, length)?;
        if !Case::board_fits(length, look, work) {
            return Err(Fault::from(Cause::OutOfRange));
        }
        Ok(Case {
            control,
            rate,
            length,
            character: line.character().0 as u32,
            look,
            work,
        })
    }

    /// W, the φ clocks of a label whose characters follow each other at once.
    pub fn label(self) -> u32
        ensures value { result ≡ label_clocks self }
        ensures bound { result ≤ 64000000 }
    {
        multiply(self.character, self.length)
    }

    /// s, the φ clocks that the board needs for a label besides the line: a look and the work.
    pub fn slack(self) -> u32
        ensures value { result ≡ slack_clocks self }
        ensures bound { result ≤ 2000000 }
    {
        self.look + self.work
    }

    /// The interval between totes in a row of the table, 0 to 16: from twice the slack above a label down to nothing above it.
    pub fn interval(self, row: u32) -> u32
        requires row { row ≤ 16 }
        ensures value { result ≡ interval_of_row self row }
        ensures bound { result ≤ 80000000 }
    {
        self.label() + multiply(self.slack(), 16 - row) / 8
    }

    /// E, the moments of a run: after the last tote there is time for its label, for the board, and for the cable.
    pub fn moments(self, interval: u32, delay: u32) -> u32
        requires interval { interval ≤ 80000000 }
        requires delay { delay ≤ 65535 }
        ensures value { result ≡ moments_of_run self interval delay }
        ensures bound { result ≤ 2000000000 }
    {
        20 * interval + self.label() + self.slack() + delay + 64
    }

    /// Whether the board looks before a moment, if its work kept it up to a moment.
    pub(crate) fn looks_before(self, moment: Moment, busy_until: u32) -> bool
        ensures { result ≡ looks_before self.look busy_until moment.number }
    {
        moment.number > busy_until && moment.number % self.look == 0
    }
}
