// Parity, from a stored table.
ghost use Rattle.std.specs.Prelude.{◌≡◌, ◌%◌, ◌^◌};
ghost use Rattle.timing.specs.Registers.{width};
ghost use Rattle.timing.specs.Ones.{odd_ones, parity_bit, parity_by};

use crate::registers::{CharacterLength, Format, Parity};

mod table;

use table::ODD_ONES;

/// Whether a byte has an odd number of ones.
pub fn odd_ones(byte: u8) -> bool
    ensures { result ≡ odd_ones byte }
{
    ODD_ONES[byte as usize]
}

/// The data bits among the bits of a character: its lowest L.
pub fn data_of(length: CharacterLength, bits: u16) -> u8
    ensures { result ≡ bits % 2 ^ width length }
{
    (bits % (1 << length.bits())) as u8
}

/// The parity bit for data whose ones are odd in number or not; false where there is none.
pub fn parity_for(parity: Parity, odd: bool) -> bool
    ensures { result ≡ parity_by parity odd }
{
    match parity {
        Parity::Disabled => false,
        Parity::Even => odd,
        Parity::Odd => !odd,
    }
}

/// The parity bit that is sent behind the data bits of a character; false where none is sent.
pub fn parity_bit_of(format: Format, character: u8) -> bool
    ensures { result ≡ parity_bit format character }
{
    parity_for(
        format.parity,
        odd_ones(data_of(format.length, character as u16)),
    )
}
