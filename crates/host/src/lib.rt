// The calls that a C host makes: plain numbers in, and a plain number out, which is a refusal's cause negated where it is
// below zero.
#![tactic(auto)]

ghost use Rattle.std.specs.Prelude.{◌≡◌};
ghost use Rattle.timing.specs.Calls.{half_bit_answer, deadline_answer};
ghost use Rattle.host.specs.Numbers.{internal_or_cause, phi_or_cause, negated};

use faults::Fault;
use timing::calls::{deadline, half_bit_count};

// A cause below zero.
fn refusal(fault: Fault) -> i64
    ensures { result ≡ negated fault }
{
    -i64::from(u32::from(fault.cause))
}

/// H of a rate register from 0 to 2047, or −5.
#[unsafe(no_mangle)]
pub extern "C" fn pair_bench_half_bit_count(rate: u32) -> i64
    ensures { result ≡ internal_or_cause (half_bit_answer rate) }
{
    match half_bit_count(rate) {
        Ok(count) => count.0 as i64,
        Err(fault) => refusal(fault),
    }
}

/// The deadline in φ clocks of a control register from 0 to 255, a rate register from 0 to 2047 and a cable's delay from
/// 0 to 65,535, or −5.
#[unsafe(no_mangle)]
pub extern "C" fn pair_bench_deadline(control: u32, rate: u32, delay: u32) -> i64
    ensures { result ≡ phi_or_cause (deadline_answer control rate delay) }
{
    match deadline(control, rate, delay) {
        Ok(clocks) => clocks.0 as i64,
        Err(fault) => refusal(fault),
    }
}
