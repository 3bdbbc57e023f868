// The cable that hands out each pair some steps later.
ghost use Rattle.std.specs.Prelude.{◌≡◌, MatchResult};
ghost use Rattle.cable.specs.Delay.{delaying_channels, unflipped_lawful, waiting_in, idle_channels, length_allowed, lengths_answer};

use crate::both_ways::BothWays;
use crate::direction::Direction;
use crate::interface::Cable;
use crate::line::Line;
use faults::{Cause, Fault};

/// A cable in which 1 to 64 pairs wait in each direction, at first all mark and inactive.
#[derive(Clone, Copy)]
pub struct Delaying {
    lines: BothWays<Line>,
}

impl Delaying {
    /// A cable in which one pair waits each way.
    pub fn new() -> Delaying
        ensures { delaying_channels result ≡ idle_channels 1 1 }
    {
        Delaying {
            lines: BothWays {
                toward_b: Line::idle(1),
                toward_a: Line::idle(1),
            },
        }
    }

    /// Sets both lengths anew, each 1 to 64; all pairs are mark and inactive again. Or refuses, and changes nothing.
    pub fn set_lengths(&mut self, toward_b: u32, toward_a: u32) -> Result<(), Fault>
        ensures answer { result ≡ lengths_answer toward_b toward_a }
        ensures state { MatchResult result (λ _. delaying_channels self.new ≡ idle_channels toward_b toward_a) (λ _. self.new ≡ self.old) }
    {
        if !is_length(toward_b) || !is_length(toward_a) {
            return Err(Fault::from(Cause::OutOfRange));
        }
        self.lines = BothWays {
            toward_b: Line::idle(toward_b as usize),
            toward_a: Line::idle(toward_a as usize),
        };
        Ok(())
    }
}

fn is_length(n: u32) -> bool
    ensures { result ≡ length_allowed n }
{
    (1..=64).contains(&n)
}

impl Cable for Delaying {
    ghost meaning = { delaying_channels };

    fn step(&mut self, direction: Direction, pair: (bool, bool)) -> (bool, bool) {
        self.lines.at_mut(direction).pass(pair)
    }

    fn delay(&self, direction: Direction) -> u32 {
        self.lines.at(direction).delay()
    }

    fn clear(&self) -> bool {
        self.lines.toward_b.clear() && self.lines.toward_a.clear()
    }

    ghost lawful = { λ c. unflipped_lawful (waiting_in c.lines.toward_b) (waiting_in c.lines.toward_a) };
}
