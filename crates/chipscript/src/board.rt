// A board with one chip.
ghost use Rattle.std.specs.Prelude.{◌≡◌, true};
ghost use Rattle.acc.specs.Sound.{sound};

use crate::commands::Command;
use acc::chip::{Acc, Received, Registers};
use faults::Cause;
use std::fmt;

/// What an accepted call answers.
#[derive(Clone, Copy)]
pub(crate) enum Answer {
    Done,
    Number(u16),
    Character(Received),
}

impl fmt::Display for Answer {
    fn fmt<W: fmt::Write>(&self, f: &mut fmt::Formatter<W>) -> fmt::Result {
        match self {
            Answer::Done => write!(f, "ok"),
            Answer::Number(number) => write!(f, "{number}"),
            Answer::Character(received) => write!(f, "{received}"),
        }
    }
}

// Its chip is sound, which the chip's type does not say.
#[derive(Drop)]
pub(crate) struct Board {
    chip: Acc,
    ghost sound: { sound chip ≡ true },
}

impl Board {
    pub(crate) fn new() -> Board {
        Board {
            chip: Acc::opened(Registers::default()),
        }
    }

    fn clocks(&mut self, n: u32, rin: bool, cts: bool) {
        for _ in 0..n {
            self.chip.clock(rin, cts);
        }
    }

    pub(crate) fn execute(&mut self, command: Command) -> Result<Answer, Cause> {
        match command {
            Command::Open(registers) => self.chip = Acc::opened(registers),
            Command::Write(address, v) => self.chip.write(u16::from(address), v),
            Command::Clock(n, rin, cts) => self.clocks(n, rin, cts),
            Command::SetDsr(active) => self.chip.set_dsr(active),
            Command::Put(address, count, value) => self.chip.put(address, count, value)?,
            Command::Load(character) => self.chip.load(character)?,
            Command::Get(address, count) => {
                return Ok(Answer::Number(self.chip.get(address, count)?));
            }
            Command::Take => return Ok(Answer::Character(self.chip.take()?)),
        }
        Ok(Answer::Done)
    }

    /// The 32 input bits as one number.
    pub(crate) fn inputs(&self) -> u32 {
        (0..32).rev().fold(
            0,
            |bits, address| bits << 1 | u32::from(self.chip.read(address)),
        )
    }

    pub(crate) fn xout(&self) -> bool {
        self.chip.pins().xout
    }
}
