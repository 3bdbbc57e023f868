// Input bits of an end.
ghost use Rattle.std.specs.Prelude.{◌≡◌};
ghost use Rattle.faults.specs.Faults.{end_number};
ghost use Rattle.pair.specs.Calls.{get_reply};
ghost use Rattle.totes.specs.Bits.{is_one};

use bench::Bench;
use cable::interface::Cable;
use faults::{End, Fault};

pub(crate) const RPER: u32 = 10;

pub(crate) const ROVER: u32 = 11;

pub(crate) const RFER: u32 = 12;

pub(crate) const RSBD: u32 = 14;

pub(crate) const RBRL: u32 = 21;

pub(crate) const XBRE: u32 = 22;

/// One input bit of an end.
pub(crate) fn input<C: Cable>(bench: &Bench<C>, end: End, address: u32) -> Result<bool, Fault>
    ensures { result ≡ is_one (get_reply (end_number end) address 1 bench.now.meaning) }
{
    Ok(bench.get(u32::from(end), address, 1)? == 1)
}
