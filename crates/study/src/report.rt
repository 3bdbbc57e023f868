// The table of a case.
ghost use Rattle.std.specs.Prelude.{◌≡◌};
ghost use Rattle.study.specs.Findings.{noted};

use crate::request::Request;
use std::io;
use totes::outcome::{Loss, Tally};

// The rows of the table, which begins with the longest interval.
const ROWS: u32 = 17;

fn print_heading(rt: &impl Print, request: Request) -> io::Result<()> {
    let Request { case, cable } = request;
    let control = case.control;
    let rate = case.rate;
    let length = case.length;
    let look = case.look;
    let work = case.work;
    let character = case.character;
    let label = case.label();
    println!(rt;
        "control {control}, rate {rate}, {cable}, labels of {length}, a look every {look}, work {work}"
    )?;
    println!(rt; "  a character takes {character} phi clocks, a label {label}")?;
    println!(rt;
        "{:>14}{:>10}{:>10}{:>10}{:>12}",
        "interval", "whole", "lost", "damaged", "moments"
    )
}

fn print_row(rt: &impl Print, interval: u32, tally: Tally) -> io::Result<()> {
    let Tally {
        whole,
        lost,
        damaged,
        moments,
        ..
    } = tally;
    println!(rt; "{interval:>14}{whole:>10}{lost:>10}{damaged:>10}{moments:>12}")
}

// What the runs so far have shown.
#[derive(Clone, Copy, Default)]
struct Findings {
    // The interval of the last row before the first in which a label was lost.
    shortest: Option<u32>,
    // The interval of that first row, and its first loss.
    first_loss: Option<(u32, Loss)>,
}

impl Findings {
    // A run has a first loss exactly if it lost a label.
    fn note(&mut self, interval: u32, tally: Tally)
        ensures { self.new ≡ noted interval tally.first_loss self.old }
    {
        if self.first_loss.is_some() {
            return;
        }
        match tally.first_loss {
            Some(loss) => self.first_loss = Some((interval, loss)),
            None => self.shortest = Some(interval),
        }
    }

    fn print(&self, rt: &impl Print) -> io::Result<()> {
        let Some((interval, loss)) = self.first_loss else {
            return println!(rt;
                "  no label is lost: the line is busy all the time before the board is"
            );
        };
        match self.shortest {
            Some(shortest) => println!(rt; "  shortest interval with none lost: {shortest}")?,
            None => println!(rt; "  labels are lost at every interval")?,
        }
        println!(rt; "  first loss, at interval {interval}: {loss}")
    }
}

/// Runs a case at each interval of its table, and prints the rows and what they show.
pub(crate) fn print_study(rt: &impl Print, number: u64, request: Request) -> io::Result<()> {
    print_heading(rt, request)?;
    let mut findings = Findings::default();
    for row in 0..ROWS {
        let interval = request.case.interval(row);
        match request.cable.run(request.case, interval) {
            Ok(tally) => {
                print_row(rt, interval, tally)?;
                findings.note(interval, tally);
            }
            Err(fault) => return println!(rt; "line {number}: {fault}"),
        }
    }
    findings.print(rt)
}
