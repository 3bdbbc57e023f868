// The host's two calls that need no bench.
ghost use Rattle.std.specs.Prelude.{◌≡◌, ◌+◌, ◌*◌, ◌≤◌, IfOk};
ghost use Rattle.timing.specs.Registers.{half_count};
ghost use Rattle.timing.specs.Calls.{deadline_half_bits, deadline_over, half_bit_answer, deadline_answer};

use crate::counts::{InternalCount, PhiCount};
use crate::registers::{Control, Format, half_bit_of, half_bits_of};
use faults::{Cause, Fault};

/// H, the internal clocks of half a bit, of a rate register from 0 to 2047.
pub fn half_bit_count(rate: u32) -> Result<InternalCount, Fault>
    ensures { result ≡ half_bit_answer rate }
{
    if rate > 2047 {
        return Err(Fault::from(Cause::OutOfRange));
    }
    Ok(half_bit_of(rate as u16))
}

// The half-bits from the edge of the start, as the receiver sees it, to the stop sample.
fn half_bits_to_stop(format: Format) -> u8
    ensures value { result ≡ deadline_half_bits format }
    ensures bound { result ≤ 21 }
{
    2 * format.samples() + 3
}

/// The deadline of a line whose numbers are known to be in range: one internal clock of the sender, the cable, one internal
/// clock of the receiver, and the character.
pub fn deadline_of(control: Control, rate: u16, delay: u16) -> PhiCount
    ensures value { result.0 ≡ deadline_over control (half_count rate) delay }
    ensures bound { result.0 ≤ 753671 }
{
    let character = half_bits_of(rate, half_bits_to_stop(control.format));
    PhiCount(2 * control.divider.q() as u64 + delay as u64 + control.divider.in_phi(character).0)
}

/// The φ clocks within which a character that can be sent at once is stored at the other end, of a control register
/// from 0 to 255, a rate register from 0 to 2047 and a cable's delay from 0 to 65,535 φ clocks.
pub fn deadline(control: u32, rate: u32, delay: u32) -> Result<PhiCount, Fault>
    ensures answer { result ≡ deadline_answer control rate delay }
    ensures bound { IfOk result (λ clocks. clocks.0 ≤ 753671) }
{
    if control > 255 || rate > 2047 || delay > 65535 {
        return Err(Fault::from(Cause::OutOfRange));
    }
    Ok(deadline_of(Control::from(control as u8), rate as u16, delay as u16))
}
