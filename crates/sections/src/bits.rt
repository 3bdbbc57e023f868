// Bits of a number, written one at a time.
ghost use Rattle.std.specs.Prelude.{◌≡◌, ◌+◌, ◌^◌, ◌<◌, ◌≤◌, if◌then◌else◌};
ghost use Rattle.sections.specs.Bits.{bit_written};

/// A register of so many bits after a write to bit k; a bit beyond its width does nothing.
#[tactic(auto, using(std::proofs::lemmas::Nat::or_lt, std::proofs::lemmas::Nat::pow_below), unfolding(crate::specs::Bits::bit_written))]
pub fn with_bit<const WIDTH: u16>(n: u16, k: u16, v: bool) -> u16
    requires { WIDTH ≤ 16 }
    ensures value { result ≡ bit_written WIDTH k v n }
    ensures within { n < 2 ^ WIDTH → result < 2 ^ WIDTH }
{
    if k >= WIDTH {
        n
    } else if v {
        n | (1 << k)
    } else {
        n & !(1 << k)
    }
}

/// A number of so many bits with one bit more, above those that are there.
pub fn with_bit_above(n: u16, count: u8, bit: bool) -> u16
    requires few { count ≤ 15 }
    requires low { n < 2 ^ count }
    ensures value { result ≡ n + (if bit then 2 ^ count else 0) }
    ensures low { result < 2 ^ (count + 1) }
{
    if bit { n + (1 << count) } else { n }
}
