// What stands once for each direction.
ghost use Rattle.std.specs.Prelude.{◌≡◌};
ghost use Rattle.std.specs.Borrow.{sem};
ghost use Rattle.cable.specs.BothWays.{way, lends_way};

use crate::direction::Direction;

/// One value for each direction of a cable.
#[derive(Clone, Copy)]
pub(crate) struct BothWays<T> {
    pub(crate) toward_b: T,
    pub(crate) toward_a: T,
}

impl<T> BothWays<T> {
    /// The value of a direction.
    pub(crate) fn at(&self, direction: Direction) -> &T
        ensures { result.now ≡ way direction self.now }
    {
        match direction {
            Direction::TowardB => &self.toward_b,
            Direction::TowardA => &self.toward_a,
        }
    }

    /// The value of a direction, to be changed. The other direction stays as it is.
    pub(crate) fn at_mut(&mut self, direction: Direction) -> &mut T
        ensures* writes_back { sem 𝓛 (lends_way T.row self.entry direction result) }
        ensures value { result.now ≡ way direction self.old }
    {
        match direction {
            Direction::TowardB => &mut self.toward_b,
            Direction::TowardA => &mut self.toward_a,
        }
    }
}
