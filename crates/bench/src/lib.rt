// Two chips with a cable between them, and the calls of a host. The calls stand in the modules below.
#![tactic(auto)]

use cable::interface::Cable;
use moments::chips::Chips;
use std::marker::Model;

mod clock;
mod ends;
mod moment;
mod opening;
mod state;

/// Two chips, the cable between them, and one φ clock for both.
// Whether it is open stands in a field of its own: its pins and its clock can be looked at before it is opened too.
#[derive(Drop)]
pub struct Bench<C: Cable> {
    cable: C,
    chips: Chips,
    clock: u32,
    is_open: bool,
}

impl<C: Cable> Model for Bench<C> {
    ghost use Rattle.std.specs.Prelude.{◌≡◌, ◌≤◌, true};
    ghost use Rattle.acc.specs.Sound.{sound};
    ghost use Rattle.pair.specs.Bench.{last_clock};
    ghost use Rattle.bench.specs.View.{Seen};

    ghost Value = { Seen C };

    ghost view = { λ s. record {
      cable = s.cable;
      meaning = record { a = s.chips.a; b = s.chips.b; channels = C.meaning s.cable; clock = s.clock; is_open = s.is_open };
    } };

    ghost invariant = { λ s. (s.clock ≤ last_clock) × (sound s.chips.a ≡ true) × (sound s.chips.b ≡ true) };
}
