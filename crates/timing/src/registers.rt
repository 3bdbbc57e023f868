// The control register and a rate register, decoded.
ghost use Rattle.std.specs.Prelude.{◌≡◌, ◌+◌, ◌*◌, ◌<◌, ◌≤◌};
ghost use Rattle.timing.specs.Registers.{bit, width, parity_bits, half_bits, samples, length_select, parity_select, stop_select, divider_select, control_of, decoded, half_count, half_count_by_bits};

use crate::counts::{Divider, InternalCount};

/// The data bits of a character, L.
#[derive(Clone, Copy, Debug, PartialEq, Eq)]
pub enum CharacterLength {
    Five = 5,
    Six = 6,
    Seven = 7,
    Eight = 8,
}

impl CharacterLength {
    /// L as a number.
    pub fn bits(self) -> u8
        ensures { result ≡ width self }
    {
        self as u8
    }
}

/// Whether a parity bit follows the data bits, and which one.
#[derive(Clone, Copy, Debug, PartialEq, Eq)]
pub enum Parity {
    Disabled,
    Even,
    Odd,
}

impl Parity {
    /// P: 1 where a parity bit is sent, else 0.
    pub fn bits(self) -> u8
        ensures { result ≡ parity_bits self }
    {
        u8::from(self != Parity::Disabled)
    }
}

/// How long a transmitter holds the stop, in half-bits.
#[derive(Clone, Copy, Debug, PartialEq, Eq)]
pub enum StopLength {
    One = 2,
    OneAndHalf = 3,
    Two = 4,
}

impl StopLength {
    /// The stop in half-bits.
    pub fn half_bits(self) -> u8
        ensures value { result ≡ half_bits self }
        ensures bound { result ≤ 4 }
    {
        self as u8
    }
}

/// What a character is made of between its start and its stop.
#[derive(Clone, Copy, Debug, PartialEq, Eq)]
pub struct Format {
    pub length: CharacterLength,
    pub parity: Parity,
}

impl Format {
    /// L + P, the bits between start and stop.
    pub fn samples(self) -> u8
        ensures value { result ≡ samples self }
        ensures bound { result ≤ 9 }
    {
        self.length.bits() + self.parity.bits()
    }
}

/// The control register, decoded.
#[derive(Clone, Copy, Debug, PartialEq, Eq)]
pub struct Control {
    pub format: Format,
    pub stop: StopLength,
    pub divider: Divider,
}

/// Bit k of a register.
pub fn bit_of(register: u16, k: u32) -> bool
    requires { k < 16 }
    ensures { result ≡ bit k register }
{
    (register >> k) % 2 == 1
}

fn select_length(register: u8) -> CharacterLength
    ensures { result ≡ length_select register }
{
    match register % 4 {
        0 => CharacterLength::Five,
        1 => CharacterLength::Six,
        2 => CharacterLength::Seven,
        _ => CharacterLength::Eight,
    }
}

fn select_parity(register: u8) -> Parity
    ensures { result ≡ parity_select register }
{
    if !bit_of(register as u16, 5) {
        Parity::Disabled
    } else if bit_of(register as u16, 4) {
        Parity::Odd
    } else {
        Parity::Even
    }
}

fn select_stop(register: u8) -> StopLength
    ensures { result ≡ stop_select register }
{
    if bit_of(register as u16, 7) {
        StopLength::One
    } else if bit_of(register as u16, 6) {
        StopLength::Two
    } else {
        StopLength::OneAndHalf
    }
}

fn select_divider(register: u8) -> Divider
    ensures { result ≡ divider_select register }
{
    if bit_of(register as u16, 3) {
        Divider::By4
    } else {
        Divider::By3
    }
}

/// What a control register holds. Bit 2 is not used.
impl From<u8> for Control {
    ghost from_gives = { λ register control. control ≡ control_of register };

    #[tactic(auto, unfolding(crate::specs::Registers::control_of))]
    fn from(register: u8) -> Control {
        Control {
            format: Format {
                length: select_length(register),
                parity: select_parity(register),
            },
            stop: select_stop(register),
            divider: select_divider(register),
        }
    }
}

/// H, the internal clocks of half a bit at a rate register's low eleven bits.
#[tactic(auto, unfolding(crate::specs::Registers::half_count))]
pub fn half_bit_of(register: u16) -> InternalCount
    ensures value { result.0 ≡ half_count register }
    ensures some { 0 < result.0 }
    ensures bound { result.0 ≤ 8192 }
{
    let low = (register % 1024) as u32;
    let n = if low == 0 { 1024 } else { low };
    if bit_of(register, 10) {
        InternalCount(8 * n)
    } else {
        InternalCount(n)
    }
}

/// The internal clocks of n half-bits at a rate register.
pub fn half_bits_of(register: u16, n: u8) -> InternalCount
    ensures value { result.0 ≡ half_count register * n }
    ensures low { n ≤ result.0 }
    ensures high { result.0 ≤ 8192 * n }
{
    InternalCount(half_bit_of(register).0 * n as u32)
}
