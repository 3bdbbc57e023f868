// The two directions of a cable.

/// From end A to end B, which comes first wherever both are named, or back.
#[derive(Clone, Copy, Debug, PartialEq, Eq)]
pub enum Direction {
    TowardB,
    TowardA,
}
