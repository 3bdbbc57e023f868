// The chip's state. Its parts change by themselves in the modules below.
ghost use Rattle.std.specs.Prelude.{◌≡◌, Some};
ghost use Rattle.acc.specs.Calls.{pins_text, received_text};

use sections::receiver::Receiver;
use sections::timer::Timer;
use sections::transmitter::Transmitter;
use std::fmt;
use timing::counts::PhiCount;

mod calls;
mod clock;
mod inputs;
mod outputs;

/// The control register, the interval register and the two rate registers.
#[derive(Clone, Copy, Default)]
pub struct Registers {
    pub control: u8,
    pub interval: u8,
    pub receive_rate: u16,
    pub transmit_rate: u16,
}

/// Which register output bits 0 to 10 go to.
#[derive(Clone, Copy, Default)]
pub struct LoadFlags {
    pub ldctrl: bool,
    pub ldir: bool,
    pub lrdr: bool,
    pub lxdr: bool,
}

/// Test mode and break.
#[derive(Clone, Copy, Default)]
pub struct Modes {
    pub tstmd: bool,
    pub brkon: bool,
}

/// Which status raises the interrupt.
#[derive(Clone, Copy, Default)]
pub struct Enables {
    pub rienb: bool,
    pub xbienb: bool,
    pub timenb: bool,
    pub dscenb: bool,
}

/// The control lines, and RIN, as the last φ clock took them; RTS; and what a change of CTS and DSR is compared with.
#[derive(Clone, Copy, Default)]
pub struct Lines {
    pub rtson: bool,
    pub rts: bool,
    pub cts: bool,
    pub dsr: bool,
    pub rin: bool,
    pub dsr_setting: bool,
    pub cts_before: bool,
    pub dsr_before: bool,
    pub dsch: bool,
}

/// One TMS 9902A.
// That a chip is sound stands in the clauses of its methods and not in its type, and so do the facts of its transmitter, receiver and
// timer: a type that sound ones alone have would ask of whoever makes one what reading, writing and resetting it do not need.
#[derive(Clone, Copy)]
pub struct Acc {
    pub registers: Registers,
    pub load: LoadFlags,
    pub modes: Modes,
    pub enables: Enables,
    pub lines: Lines,
    pub transmitter: Transmitter,
    pub receiver: Receiver,
    pub timer: Timer,
    /// φ clocks since the last internal clock.
    pub divider: PhiCount,
    /// φ clocks after a reset in which nothing may yet be read or written.
    pub recovery: PhiCount,
}

/// A received character with its flags.
#[derive(Clone, Copy, Debug, PartialEq, Eq)]
pub struct Received {
    pub character: u8,
    pub rfer: bool,
    pub rover: bool,
    pub rper: bool,
}

/// The pins that others see: XOUT, true at mark; RTS and INT, true where they are active.
#[derive(Clone, Copy, Debug, PartialEq, Eq)]
pub struct Pins {
    pub xout: bool,
    pub rts: bool,
    pub int: bool,
}

impl From<Receiver> for Received {
    ghost from_gives = { λ r received. received ≡ record { character = r.buffer; rfer = r.rfer; rover = r.rover; rper = r.rper } };

    fn from(receiver: Receiver) -> Received {
        Received {
            character: receiver.buffer,
            rfer: receiver.rfer,
            rover: receiver.rover,
            rper: receiver.rper,
        }
    }
}

impl fmt::Display for Received {
    ghost output = { λ r. Some (received_text r) };

    fn fmt<W: fmt::Write>(&self, f: &mut fmt::Formatter<W>) -> fmt::Result {
        let [rfer, rover, rper] = [self.rfer, self.rover, self.rper].map(u8::from);
        write!(f, "{} {rfer} {rover} {rper}", self.character)
    }
}

impl fmt::Display for Pins {
    ghost output = { λ p. Some (pins_text p) };

    fn fmt<W: fmt::Write>(&self, f: &mut fmt::Formatter<W>) -> fmt::Result {
        let [xout, rts, int] = [self.xout, self.rts, self.int].map(u8::from);
        write!(f, "{xout} {rts} {int}")
    }
}
