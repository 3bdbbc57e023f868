// What every cable does, told by its meaning.
ghost use Rattle.std.specs.Prelude.{◌≡◌};
ghost use Rattle.cable.specs.Channels.{Channels, Lawful, channel, handed, channels_stepped, delay_of, is_clear};

use crate::direction::Direction;

/// A cable between two boards. Each step carries a data level, true for mark, and a control line, true where it is active.
pub trait Cable {
    // the waiting pairs and the flips of each direction
    ghost meaning: { Self → Channels };

    /// Takes a pair in one direction and hands one out there. The other direction stays as it is.
    fn step(&mut self, direction: Direction, pair: (bool, bool)) -> (bool, bool)
        ensures hands { result ≡ handed (channel direction (meaning self.old)) pair }
        ensures leaves { meaning self.new ≡ channels_stepped direction pair (meaning self.old) };

    /// How many pairs wait in a direction, or 65,535 if there are more.
    fn delay(&self, direction: Direction) -> u32
        ensures { result ≡ delay_of (channel direction (meaning self.now)) };

    /// Whether every waiting data level, both ways, is mark.
    fn clear(&self) -> bool
        ensures { result ≡ is_clear (meaning self.now) };

    // each flip has a place on the cable, and a position not below it
    ghost lawful: { (c : Self) → Lawful (meaning c) };
}
