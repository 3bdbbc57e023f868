// A board with one chip in test mode.
ghost use Rattle.std.specs.Prelude.{◌≡◌, true};
ghost use Rattle.acc.specs.Sound.{sound};

use acc::chip::{Acc, Received, Registers};

/// What a clock did: the character that was stored, and whether INT rose.
#[derive(Clone, Copy)]
pub(crate) struct Clocked {
    pub(crate) stored: Option<Received>,
    pub(crate) int_rises: bool,
}

// Its chip is sound, which the chip's type does not say.
#[derive(Drop)]
pub(crate) struct Board {
    chip: Acc,
    ghost sound: { sound chip ≡ true },
}

impl Board {
    /// A chip that hears itself, with RTS on and the receiver's interrupt enabled.
    pub(crate) fn in_test_mode(control: u8, rate: u16) -> Board {
        let mut chip = Acc::opened(Registers {
            control,
            interval: 0,
            receive_rate: rate,
            transmit_rate: rate,
        });
        chip.write(15, true);
        chip.write(16, true);
        chip.write(18, true);
        Board { chip }
    }

    /// Loads a character if the transmit buffer is free, and tells whether it was.
    pub(crate) fn load(&mut self, character: u8) -> bool {
        self.chip.load(character).is_ok()
    }

    /// One φ clock. Test mode looks at neither of the levels that are handed over.
    pub(crate) fn clock(&mut self) -> Clocked {
        let rsbd = self.chip.receiver.rsbd();
        let int = self.chip.interrupt();
        self.chip.clock(true, false);
        let receiver = self.chip.receiver;
        Clocked {
            stored: (rsbd && !receiver.rsbd()).then_some(Received::from(receiver)),
            int_rises: !int && self.chip.interrupt(),
        }
    }

    pub(crate) fn interrupt(&self) -> bool {
        self.chip.interrupt()
    }

    pub(crate) fn take(&mut self) -> Option<Received> {
        self.chip.take().ok()
    }
}
