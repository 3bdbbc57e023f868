// Calls to one end. A host, which may be written in C, gives each number as it comes: causes 4 and 5 refuse those out of range.
ghost use Rattle.std.specs.Prelude.{◌≡◌, true, OnOk};
ghost use Rattle.pair.specs.Bench.{end_of};
ghost use Rattle.pair.specs.Calls.{at_end, span_fits, load_reply, load_done, take_reply, take_done, put_reply, put_done, get_reply};
ghost use Rattle.bench.specs.Ends.{admitted};

use crate::Bench;
use acc::chip::Received;
use cable::interface::Cable;
use faults::{Cause, End, Fault};

// A chip's answer; its refusals get their place, the chip's end.
fn at_end<T>(end: End, answer: Result<T, Cause>) -> Result<T, Fault>
    ensures { result ≡ at_end end answer }
{
    answer.map_err(|cause| cause.at(0, Some(end)))
}

// 1 to 16 bits that do not pass address 31. The two numbers are what a host and a line of a script give: a struct of both would be made at
// each call, to be taken apart here.
fn span_fits(address: u32, count: u32) -> bool
    ensures { result ≡ span_fits address count }
{
    (1..=16).contains(&count) && address <= 32 - count
}

impl<C: Cable> Bench<C> {
    // The end that a host names, if its other numbers fit and the bench is open: causes 4, 5 and 9.
    fn admit(&self, end: u32, fits: bool) -> Result<End, Fault>
        ensures answer { result ≡ admitted (end_of end) fits self.now.meaning }
        ensures fits { OnOk result (fits ≡ true) }
    {
        let end = End::try_from(end)?;
        if !fits {
            return Err(Cause::OutOfRange.at(0, Some(end)));
        }
        if !self.is_open {
            return Err(Cause::NotOpen.at(0, Some(end)));
        }
        Ok(end)
    }

    /// Loads a character into the transmit buffer of an end. Refused by causes 4, 5, 9, 11, 12 and 13.
    #[tactic(auto, using(crate::proofs::Kept::load_kept))]
    pub fn load(&mut self, end: u32, character: u32) -> Result<(), Fault>
        ensures answer { result ≡ load_reply end character self.old.meaning }
        ensures state { self.new.meaning ≡ load_done end character self.old.meaning }
    {
        let end = self.admit(end, character <= 255)?;
        at_end(end, self.chips.at_mut(end).load(character as u8))
    }

    /// Takes the received character of an end with its flags. Refused by causes 4, 9, 11 and 14.
    #[tactic(auto, using(crate::proofs::Kept::take_kept))]
    pub fn take(&mut self, end: u32) -> Result<Received, Fault>
        ensures answer { result ≡ take_reply end self.old.meaning }
        ensures state { self.new.meaning ≡ take_done end self.old.meaning }
    {
        let end = self.admit(end, true)?;
        at_end(end, self.chips.at_mut(end).take())
    }

    /// Writes the low bits of a number to output bits of an end, upward from an address, lowest first. Refused by causes 4, 5, 9 and 11.
    #[tactic(auto, using(crate::proofs::Kept::put_kept))]
    pub fn put(&mut self, end: u32, address: u32, count: u32, value: u32) -> Result<(), Fault>
        ensures answer { result ≡ put_reply end address count value self.old.meaning }
        ensures state { self.new.meaning ≡ put_done end address count value self.old.meaning }
    {
        let end = self.admit(end, span_fits(address, count) && value <= 65535)?;
        let chip = self.chips.at_mut(end);
        at_end(end, chip.put(address as u8, count as u8, value as u16))
    }

    /// Reads input bits of an end, upward from an address, lowest first. Refused by causes 4, 5, 9 and 11.
    pub fn get(&self, end: u32, address: u32, count: u32) -> Result<u16, Fault>
        ensures { result ≡ get_reply end address count self.now.meaning }
    {
        let end = self.admit(end, span_fits(address, count))?;
        at_end(end, self.chips.at(end).get(address as u8, count as u8))
    }
}
