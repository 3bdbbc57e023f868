// The cable that neither delays nor disturbs.
ghost use Rattle.std.specs.Prelude.{[]};
ghost use Rattle.cable.specs.Delay.{straight_channels, unflipped_lawful};

use crate::direction::Direction;
use crate::interface::Cable;

/// A cable that hands out each pair in the step in which it enters.
#[derive(Clone, Copy)]
pub struct Straight;

impl Cable for Straight {
    ghost meaning = { λ _. straight_channels };

    #[tactic(auto, unfolding(crate::specs::Channels::handed, crate::specs::Channels::stepped, crate::specs::Channels::struck, crate::specs::Channels::remaining))]
    fn step(&mut self, direction: Direction, pair: (bool, bool)) -> (bool, bool) {
        pair
    }

    fn delay(&self, direction: Direction) -> u32 {
        0
    }

    #[tactic(auto, unfolding(crate::specs::Channels::all_mark))]
    fn clear(&self) -> bool {
        true
    }

    ghost lawful = { λ _. unflipped_lawful [] [] };
}
