// The cable that turns over the data level of some pairs.
ghost use Rattle.std.specs.Prelude.{◌≡◌, [], MatchResult, nat_lt};
ghost use Rattle.cable.specs.Disturb.{disturbed_channels, disturbed_lawful, flips_channels, list_allowed, flips_answer};

use crate::both_ways::BothWays;
use crate::direction::Direction;
use crate::interface::Cable;
use crate::track::Track;
use faults::{Cause, Fault};

/// A cable in which nothing waits, and that turns over the data level at the steps of two lists that are lent to it.
#[derive(Clone, Copy)]
pub struct Disturbed<'a> {
    tracks: BothWays<Track<'a>>,
}

impl<'a> Disturbed<'a> {
    /// A cable without flips.
    pub fn new() -> Disturbed<'a>
        ensures { disturbed_channels result ≡ flips_channels [] [] }
    {
        Disturbed {
            tracks: BothWays {
                toward_b: Track::new(&[]),
                toward_a: Track::new(&[]),
            },
        }
    }

    /// Replaces all flips; the numbers count steps from this call, from 0. A list has at most 4,096 and rises strictly.
    /// Or refuses, and changes nothing.
    pub fn set_flips(&mut self, toward_b: &'a [u32], toward_a: &'a [u32]) -> Result<(), Fault>
        ensures answer { result ≡ flips_answer toward_b.now toward_a.now }
        ensures state { MatchResult result (λ _. disturbed_channels self.new ≡ flips_channels toward_b.now toward_a.now) (λ _. self.new ≡ self.old) }
    {
        if !is_list(toward_b) || !is_list(toward_a) {
            return Err(Fault::from(Cause::OutOfRange));
        }
        self.tracks = BothWays {
            toward_b: Track::new(toward_b),
            toward_a: Track::new(toward_a),
        };
        Ok(())
    }
}

// At most 4,096 numbers, each above the one before it.
fn is_list(list: &[u32]) -> bool
    ensures { result ≡ list_allowed list.now }
{
    let is_below = |number: &u32, next: &u32| -> bool
        ensures { result ≡ nat_lt number.now next.now }
    { number < next };
    list.len() <= 4096 && list.is_sorted_by(is_below)
}

impl<'a> Cable for Disturbed<'a> {
    ghost meaning = { disturbed_channels };

    fn step(&mut self, direction: Direction, pair: (bool, bool)) -> (bool, bool) {
        self.tracks.at_mut(direction).pass(pair)
    }

    fn delay(&self, direction: Direction) -> u32 {
        0
    }

    #[tactic(auto, unfolding(crate::specs::Channels::all_mark))]
    fn clear(&self) -> bool {
        true
    }

    ghost lawful = { disturbed_lawful };
}
