// The scanner board, at end A.
ghost use Rattle.std.specs.Prelude.{◌≡◌, ◌≤◌};
ghost use Rattle.totes.specs.Scanning.{tote_met};

use crate::case::Case;
use crate::inputs::{XBRE, input};
use crate::moment::Moment;
use crate::position::{Position, TOTES};
use bench::Bench;
use cable::interface::Cable;
use faults::{End, Fault};

/// The totes that have come, the moment before which the next one comes, and the character that is loaded next. The queue holds the
/// characters from that one to the last of the totes that have come.
#[derive(Clone, Copy)]
pub(crate) struct Scanner {
    totes: u32,
    due: u32,
    next: Position,
}

impl Scanner {
    pub(crate) fn new() -> Scanner {
        Scanner {
            totes: 0,
            due: 1,
            next: Position::first(),
        }
    }

    /// Before a moment: if a tote comes, its characters join the queue.
    pub(crate) fn meet(&mut self, moment: Moment, interval: u32)
        requires { interval ≤ 80000000 }
        ensures { self.new ≡ tote_met moment.number interval self.old }
    {
        if moment.number == self.due && self.totes < TOTES {
            self.totes += 1;
            self.due = moment.number + interval;
        }
    }

    /// Loads the first character of the queue where the transmit buffer is empty.
    pub(crate) fn load<C: Cable>(&mut self, bench: &mut Bench<C>, case: Case) -> Result<(), Fault> {
        if self.next.label < self.totes && input(bench, End::A, XBRE)? {
            bench.load(u32::from(End::A), self.next.character)?;
            self.next = self.next.next(case);
        }
        Ok(())
    }
}
