// What a bench is opened with.

/// The numbers of an opening, as a host gives them: the clock to start at, the control register and the interval register of both chips, and
/// the rates, at which A sends by `x` and receives by `r`, and B the reverse.
#[derive(Clone, Copy, Debug, PartialEq, Eq)]
pub struct Opening {
    pub start: u32,
    pub control: u32,
    pub x: u32,
    pub r: u32,
    pub interval: u32,
}
