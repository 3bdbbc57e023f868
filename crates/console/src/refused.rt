// How a refused line of input is shown.
ghost use Rattle.std.specs.Prelude.{Some};
ghost use Rattle.console.specs.Refused.{refused_line};

use faults::Fault;
use std::fmt;

/// A line of input that is refused, by its number, and why.
#[derive(Clone, Copy)]
pub struct RefusedLine {
    pub number: u64,
    pub fault: Fault,
}

impl fmt::Display for RefusedLine {
    ghost output = { λ line. Some (refused_line line.number line.fault) };

    fn fmt<W: fmt::Write>(&self, f: &mut fmt::Formatter<W>) -> fmt::Result {
        let RefusedLine { number, fault } = *self;
        write!(f, "line {number} is refused: {fault}")
    }
}
