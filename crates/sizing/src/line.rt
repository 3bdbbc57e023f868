// A line between two boards, the label that it carries, as a planner gives them, and what it can carry.
ghost use Rattle.std.specs.Prelude.{◌≡◌, ◌+◌, ◌*◌, ◌/◌, ◌<◌, ◌≤◌, is_ok, MatchResult};
ghost use Rattle.faults.specs.declared.Cause.TheVariants.{OutOfRange};
ghost use Rattle.faults.specs.Faults.{unplaced};
ghost use Rattle.timing.specs.Registers.{control_of, half_count, half_bits, samples};
ghost use Rattle.timing.specs.Calls.{deadline_of};
ghost use Rattle.sizing.specs.Figures.{rate_at, microseconds_at, per_minute_at};
ghost use Rattle.sizing.specs.Sizes.{line_fits, bit_clocks, character_half_bits, character_clocks, label_clocks};

use crate::figures::{Hundredths, SystemClock, microseconds_of, per_minute_of, rate_of};
use faults::{Cause, Fault};
use timing::calls::deadline_of;
use timing::counts::{InternalCount, PhiCount};
use timing::registers::{Control, half_bit_of, half_bits_of};

/// A control register, a rate register, a cable's delay in φ clocks and a label's length in characters.
#[derive(Clone, Copy)]
pub struct Line {
    control: u8,
    rate: u16,
    delay: u16,
    label: u16,
    ghost rate_fits: { rate < 2048 },
    ghost label_some: { 0 < label },
}

impl Line {
    /// A line, or cause 5 where a number is outside its range: control 0 to 255, rate 0 to 2047, delay 0 to 65,535, and a
    /// label of 1 to 65,535 characters.
    pub fn new(control: u32, rate: u32, delay: u32, label: u32) -> Result<Line, Fault>
        ensures test { is_ok result ≡ line_fits control rate delay label }
        ensures cases { MatchResult result (λ l. (l.control ≡ control) × (l.rate ≡ rate) × (l.delay ≡ delay) × (l.label ≡ label)) (λ f. f ≡ unplaced OutOfRange) }
    {
        if control > 255 || rate > 2047 || delay > 65535 || label == 0 || label > 65535 {
            return Err(Fault::from(Cause::OutOfRange));
        }
        Ok(Line {
            control: control as u8,
            rate: rate as u16,
            delay: delay as u16,
            label: label as u16,
        })
    }

    /// The control register, decoded.
    pub fn control(self) -> Control
        ensures { result ≡ control_of self.control }
    {
        Control::from(self.control)
    }

    /// H, the internal clocks of half a bit.
    pub fn half_bit(self) -> InternalCount
        ensures value { result.0 ≡ half_count self.rate }
        ensures some { 0 < result.0 }
        ensures bound { result.0 ≤ 8192 }
    {
        half_bit_of(self.rate)
    }

    /// The φ clocks of one bit.
    pub fn bit(self) -> PhiCount
        ensures value { result.0 ≡ bit_clocks self.control self.rate }
        ensures some { 0 < result.0 }
    {
        self.control().divider.in_phi(half_bits_of(self.rate, 2))
    }

    /// The φ clocks of one character where the next follows at once.
    pub fn character(self) -> PhiCount
        ensures value { result.0 ≡ character_clocks self.control self.rate }
        ensures some { 0 < result.0 }
        ensures bound { result.0 ≤ 786432 }
    {
        let control = self.control();
        control
            .divider
            .in_phi(half_bits_of(self.rate, half_bits_to_next(control)))
    }

    /// The φ clocks of a label whose characters are sent back to back.
    pub fn label(self) -> PhiCount
        ensures value { result.0 ≡ label_clocks self.control self.rate self.label }
        ensures some { 0 < result.0 }
    {
        PhiCount(self.label as u64 * self.character().0)
    }

    /// The φ clocks within which a character that can be sent at once is stored at the other end.
    pub fn deadline(self) -> PhiCount
        ensures value { result.0 ≡ deadline_of self.control self.rate self.delay }
        ensures bound { result.0 ≤ 753671 }
    {
        deadline_of(self.control(), self.rate, self.delay)
    }

    /// Bits a second.
    pub fn bit_rate(self, clock: SystemClock) -> Hundredths
        ensures { result.0 ≡ rate_at clock (bit_clocks self.control self.rate) }
    {
        rate_of(clock, self.bit())
    }

    /// The deadline in microseconds.
    pub fn deadline_time(self, clock: SystemClock) -> Hundredths
        ensures { result.0 ≡ microseconds_at clock (deadline_of self.control self.rate self.delay) }
    {
        microseconds_of(clock, self.deadline())
    }

    /// The highest number of labels that the line can carry in a minute.
    pub fn labels_per_minute(self, clock: SystemClock) -> u64
        ensures { result ≡ per_minute_at clock (label_clocks self.control self.rate self.label) }
    {
        per_minute_of(clock, self.label())
    }
}

// The half-bits from one start to the next where characters follow at once.
fn half_bits_to_next(control: Control) -> u8
    ensures value { result ≡ character_half_bits control }
    ensures some { 0 < result }
    ensures bound { result ≤ 24 }
{
    2 + 2 * control.format.samples() + control.stop.half_bits()
}
