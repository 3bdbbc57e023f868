// What a host may ask of one chip.
ghost use Rattle.std.specs.Prelude.{◌≡◌, true};
ghost use Rattle.acc.specs.Sound.{sound};
ghost use Rattle.acc.specs.Calls.{opened_chip, dsr_set, pins_of, recovering, put_answer, put_checked, put_of, get_answer, load_answer, load_of, take_answer, take_of};

use super::{Acc, Enables, Lines, LoadFlags, Modes, Pins, Received, Registers};
use faults::Cause;
use sections::bits::with_bit_above;
use sections::receiver::Receiver;
use sections::timer::Timer;
use sections::transmitter::Transmitter;
use timing::counts::PhiCount;

impl Acc {
    /// A chip as open leaves it.
    #[tactic(auto, unfolding(crate::specs::Sound::sound))]
    pub fn opened(registers: Registers) -> Acc
        ensures step { result ≡ opened_chip registers }
        ensures sound { sound result ≡ true }
    {
        Acc {
            registers,
            load: LoadFlags::default(),
            modes: Modes::default(),
            enables: Enables::default(),
            lines: Lines {
                rin: true,
                ..Lines::default()
            },
            transmitter: Transmitter::empty(),
            receiver: Receiver::idle(),
            timer: Timer::at(registers.interval),
            divider: PhiCount(0),
            recovery: PhiCount(0),
        }
    }

    /// Sets what the DSR input is driven to. The next φ clock takes it.
    #[tactic(auto, unfolding(crate::specs::Sound::sound))]
    pub fn set_dsr(&mut self, active: bool)
        ensures step { self.new ≡ dsr_set active self.old }
        ensures sound { sound self.old ≡ true → sound self.new ≡ true }
    {
        self.lines.dsr_setting = active;
    }

    /// The pins that others see.
    pub fn pins(&self) -> Pins
        ensures { result ≡ pins_of self.now }
    {
        Pins {
            xout: self.transmitter.xout,
            rts: self.lines.rts,
            int: self.interrupt(),
        }
    }

    /// Whether a reset was less than 11 φ clocks ago, so that nothing may be read or written yet.
    pub fn is_recovering(&self) -> bool
        ensures { result ≡ recovering self.now }
    {
        self.recovery.0 > 0
    }

    // Cause 11.
    fn check_recovered(&self) -> Result<(), Cause>
        ensures { result ≡ put_checked self.now }
    {
        if self.is_recovering() {
            return Err(Cause::Recovering);
        }
        Ok(())
    }

    /// Loads a character into the transmit buffer. Refused by causes 11, 12 and 13.
    #[tactic(auto, unfolding(crate::specs::Calls::load_answer, crate::specs::Calls::load_of, crate::specs::Sound::sound))]
    pub fn load(&mut self, character: u8) -> Result<(), Cause>
        requires sound { sound self.old ≡ true }
        ensures answer { result ≡ load_answer self.old }
        ensures step { self.new ≡ load_of character self.old }
        ensures sound { sound self.new ≡ true }
    {
        self.check_recovered()?;
        if self.flag() {
            return Err(Cause::BufferNotEnabled);
        }
        if !self.transmitter.xbre {
            return Err(Cause::BufferFull);
        }
        self.transmitter.load(character);
        Ok(())
    }

    /// Takes the received character with its flags, and resets RBRL. Refused by causes 11 and 14.
    #[tactic(auto, unfolding(crate::specs::Calls::take_answer, crate::specs::Calls::take_of, crate::specs::Sound::sound))]
    pub fn take(&mut self) -> Result<Received, Cause>
        requires sound { sound self.old ≡ true }
        ensures answer { result ≡ take_answer self.old }
        ensures step { self.new ≡ take_of self.old }
        ensures sound { sound self.new ≡ true }
    {
        self.check_recovered()?;
        if !self.receiver.rbrl {
            return Err(Cause::NothingReceived);
        }
        self.receiver.release();
        Ok(Received::from(self.receiver))
    }

    /// Writes the low bits of a number, at most 16, upward from an address, lowest first. Refused by cause 11.
    // Here and in `get` the loop counts a bit's index, since its address and its weight are made of it. Address and count are two
    // parameters, as a host names them, and no other function takes them.
    #[tactic(auto, using(crate::proofs::Writing::bits_written_step), unfolding(crate::specs::Calls::put_answer, crate::specs::Calls::put_of, crate::specs::Calls::bits_written))]
    pub fn put(&mut self, address: u8, count: u8, value: u16) -> Result<(), Cause>
        requires sound { sound self.old ≡ true }
        ensures answer { result ≡ put_answer self.old }
        ensures step { self.new ≡ put_of address count value self.old }
        ensures sound { sound self.new ≡ true }
    {
        self.check_recovered()?;
        let mut rest = value;
        for i in 0..count.min(16) {
            self.write(address as u16 + i as u16, rest % 2 == 1);
            rest /= 2;
        }
        Ok(())
    }

    /// Reads at most 16 bits upward from an address, lowest first. Refused by cause 11.
    #[tactic(auto, unfolding(crate::specs::Calls::get_answer, crate::specs::Inputs::bits_read))]
    pub fn get(&self, address: u8, count: u8) -> Result<u16, Cause>
        ensures { result ≡ get_answer address count self.now }
    {
        self.check_recovered()?;
        let mut value = 0;
        for i in 0..count.min(16) {
            value = with_bit_above(value, i, self.read(address as u16 + i as u16));
        }
        Ok(value)
    }
}
