// The cables of the study. Each run has a new one.
ghost use Rattle.std.specs.Prelude.{◌<◌, ◌≤◌};

use crate::request::RequestFault;
use cable::delaying::Delaying;
use cable::disturbed::Disturbed;
use cable::straight::Straight;
use faults::{Cause, Fault};
use std::fmt;
use totes::case::Case;
use totes::noise::{INVERTED_STEPS, fill_inverted_steps};
use totes::outcome::Tally;
use totes::run::run;

/// How often a noisy cable inverts a step: every n-th.
#[derive(Clone, Copy)]
pub(crate) struct EveryNth {
    pub(crate) n: u32,
    ghost some: { 0 < n },
    ghost bound: { n ≤ 1000000 },
}

/// A cable and its number: the pairs that wait each way, or how often a step is inverted.
#[derive(Clone, Copy)]
pub(crate) enum CableKind {
    Straight,
    Delay(u32),
    Noise(EveryNth),
}

impl fmt::Display for CableKind {
    fn fmt<W: fmt::Write>(&self, f: &mut fmt::Formatter<W>) -> fmt::Result {
        match self {
            CableKind::Straight => write!(f, "straight cable"),
            CableKind::Delay(pairs) => write!(f, "cable with a delay of {pairs}"),
            CableKind::Noise(every) => write!(f, "cable that inverts every {}th step", every.n),
        }
    }
}

fn run_delayed(case: Case, interval: u32, pairs: u32) -> Result<Tally, Fault> {
    let mut cable = Delaying::new();
    cable.set_lengths(pairs, pairs)?;
    run(cable, case, interval)
}

fn run_disturbed(case: Case, interval: u32, every: EveryNth) -> Result<Tally, Fault> {
    // the list is lent to the cable, which takes no heap
    let mut steps = [0u32; INVERTED_STEPS];
    fill_inverted_steps(&mut steps, every.n);
    let mut cable = Disturbed::new();
    cable.set_flips(&steps, &[])?;
    run(cable, case, interval)
}

impl CableKind {
    /// The cable of a name and a number.
    pub(crate) fn named(name: &[u8], number: u32) -> Result<CableKind, RequestFault> {
        match (name, number) {
            (b"straight", 0) => Ok(CableKind::Straight),
            (b"delay", 1..=64) => Ok(CableKind::Delay(number)),
            (b"noise", 1..=1000000) => Ok(CableKind::Noise(EveryNth { n: number })),
            (b"straight" | b"delay" | b"noise", _) => Err(RequestFault::Refused(Fault::from(
                Cause::OutOfRange,
            ))),
            _ => Err(RequestFault::BadForm),
        }
    }

    /// One run of the case over this cable.
    pub(crate) fn run(self, case: Case, interval: u32) -> Result<Tally, Fault> {
        match self {
            CableKind::Straight => run(Straight, case, interval),
            CableKind::Delay(pairs) => run_delayed(case, interval, pairs),
            CableKind::Noise(every) => run_disturbed(case, interval, every),
        }
    }
}
