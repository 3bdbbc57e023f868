// Output bits: what a write of the processor does.
ghost use Rattle.std.specs.Prelude.{◌≡◌, ◌≤◌, true};
ghost use Rattle.acc.specs.Sound.{parts_sound, sound};
ghost use Rattle.acc.specs.Outputs.{write_of, control_written, interval_written, rates_written, ldir_fallen, ldir_written, flag_written, mode_written, reset_chip};

use super::{Acc, Enables, LoadFlags, Modes};
use sections::bits::with_bit;
use sections::timer::Timer;
use timing::counts::PhiCount;

impl Acc {
    /// A write to one output bit.
    // An address and a level are two parameters, since they are what the processor hands over: no function below keeps them.
    #[tactic(auto, unfolding(crate::specs::Outputs::write_of, crate::specs::Sound::sound))]
    pub fn write(&mut self, address: u16, v: bool)
        ensures step { self.new ≡ write_of address v self.old }
        ensures sound { sound self.old ≡ true → sound self.new ≡ true }
    {
        match address {
            0..=10 if self.load.ldctrl => self.write_control(address, v),
            0..=10 if self.load.ldir => self.write_interval(address, v),
            0..=10 if self.load.lrdr || self.load.lxdr => self.write_rates(address, v),
            0..=10 if !self.modes.brkon => self.transmitter.write_bit(address, v),
            11..=14 => self.write_flag(address, v),
            15..=21 => self.write_mode(address, v),
            31 => self.reset(),
            _ => {}
        }
    }

    fn write_control(&mut self, address: u16, v: bool)
        ensures step { self.new ≡ control_written address v self.old }
        ensures sound { parts_sound self.old ≡ true → parts_sound self.new ≡ true }
    {
        self.registers.control = with_bit::<8>(self.registers.control as u16, address, v) as u8;
        if address == 7 {
            self.load.ldctrl = false;
        }
    }

    fn write_interval(&mut self, address: u16, v: bool)
        ensures step { self.new ≡ interval_written address v self.old }
        ensures sound { parts_sound self.old ≡ true → parts_sound self.new ≡ true }
    {
        self.registers.interval = with_bit::<8>(self.registers.interval as u16, address, v) as u8;
        if address == 7 {
            self.drop_ldir();
        }
    }

    fn drop_ldir(&mut self)
        ensures step { self.new ≡ ldir_fallen self.old }
        ensures sound { parts_sound self.old ≡ true → parts_sound self.new ≡ true }
    {
        self.load.ldir = false;
        self.timer.load(self.registers.interval);
    }

    fn write_rates(&mut self, address: u16, v: bool)
        ensures step { self.new ≡ rates_written address v self.old }
        ensures sound { parts_sound self.old ≡ true → parts_sound self.new ≡ true }
    {
        if self.load.lrdr {
            self.registers.receive_rate = with_bit::<11>(self.registers.receive_rate, address, v);
        }
        if self.load.lxdr {
            self.registers.transmit_rate = with_bit::<11>(self.registers.transmit_rate, address, v);
        }
        if address == 10 {
            self.load.lrdr = false;
        }
    }

    fn write_flag(&mut self, address: u16, v: bool)
        requires low { 11 ≤ address }
        requires high { address ≤ 14 }
        ensures step { self.new ≡ flag_written address v self.old }
        ensures sound { parts_sound self.old ≡ true → parts_sound self.new ≡ true }
    {
        match address {
            11 => self.load.lxdr = v,
            12 => self.load.lrdr = v,
            13 => self.write_ldir(v),
            _ => self.load.ldctrl = v,
        }
    }

    fn write_ldir(&mut self, v: bool)
        ensures step { self.new ≡ ldir_written v self.old }
        ensures sound { parts_sound self.old ≡ true → parts_sound self.new ≡ true }
    {
        if self.load.ldir && !v {
            self.drop_ldir();
        } else {
            self.load.ldir = v;
        }
    }

    fn write_mode(&mut self, address: u16, v: bool)
        requires low { 15 ≤ address }
        requires high { address ≤ 21 }
        ensures step { self.new ≡ mode_written address v self.old }
        ensures sound { parts_sound self.old ≡ true → parts_sound self.new ≡ true }
    {
        match address {
            15 => self.modes.tstmd = v,
            16 => {
                self.lines.rtson = v;
                if v {
                    self.lines.rts = true;
                }
            }
            17 => self.modes.brkon = v,
            18 => {
                self.enables.rienb = v;
                self.receiver.release();
            }
            19 => self.enables.xbienb = v,
            20 => {
                self.enables.timenb = v;
                self.timer.acknowledge();
            }
            _ => {
                self.enables.dscenb = v;
                self.lines.dsch = false;
            }
        }
    }

    // The registers, the buffers and the levels last seen stay.
    fn reset(&mut self)
        ensures step { self.new ≡ reset_chip self.old }
        ensures sound { parts_sound self.new ≡ true }
    {
        self.load = LoadFlags {
            ldctrl: true,
            ldir: true,
            lrdr: true,
            lxdr: true,
        };
        self.modes = Modes::default();
        self.enables = Enables::default();
        self.lines.rtson = false;
        self.lines.rts = false;
        self.lines.dsch = false;
        self.transmitter.reset();
        self.receiver.reset();
        self.timer = Timer::at(0);
        self.divider = PhiCount(0);
        self.recovery = PhiCount(11);
    }
}
