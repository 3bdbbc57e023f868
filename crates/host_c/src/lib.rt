// The static library for C: each call of `host` under its C name. A crate is a library or a static library and not both, so `host` cannot be
// this one.
#![tactic(auto)]

ghost use Rattle.std.specs.Prelude.{◌≡◌};
ghost use Rattle.timing.specs.Calls.{half_bit_answer, deadline_answer};
ghost use Rattle.host.specs.Numbers.{internal_or_cause, phi_or_cause};

/// H of a rate register from 0 to 2047, or −5.
#[unsafe(no_mangle)]
pub extern "C" fn pair_bench_half_bit_count(rate: u32) -> i64
    ensures { result ≡ internal_or_cause (half_bit_answer rate) }
{
    host::pair_bench_half_bit_count(rate)
}

/// The deadline in φ clocks of a control register from 0 to 255, a rate register from 0 to 2047 and a cable's delay from
/// 0 to 65,535, or −5.
#[unsafe(no_mangle)]
pub extern "C" fn pair_bench_deadline(control: u32, rate: u32, delay: u32) -> i64
    ensures { result ≡ phi_or_cause (deadline_answer control rate delay) }
{
    host::pair_bench_deadline(control, rate, delay)
}
