// The transmitter: the transmit buffer, the shift register and XOUT.
ghost use Rattle.std.specs.Prelude.{◌≡◌, ◌<◌, true};
ghost use Rattle.sections.specs.Transmit.{word_of, empty_transmitter, buffer_written, buffer_loaded, reset_transmitter, xsre, send, idle_rules, sound_transmitter};

use crate::bits::with_bit;
use timing::counts::InternalCount;
use timing::ones::{data_of, parity_bit_of};
use timing::registers::{Control, Format, StopLength, half_bits_of};

/// What a transmitter is at. The format and the stop length are fixed when the start begins.
#[derive(Clone, Copy)]
pub enum Sending {
    /// The shift register is empty: XSRE is 1.
    Idle,
    /// An element stands for `left` more internal clocks; `count` bits, the low ones of `word`, and the stop are to come.
    Element {
        left: InternalCount,
        word: u16,
        count: u8,
        stop: StopLength,
    },
    /// The stop stands for `left` more internal clocks.
    Stop {
        left: InternalCount,
    },
}

/// The transmitter. An idle one whose XOUT is space is in a break.
#[derive(Clone, Copy)]
pub struct Transmitter {
    pub state: Sending,
    pub xout: bool,
    /// The buffer may be loaded. It is no `Option` round the buffer, which is written bit by bit and keeps its bits.
    pub xbre: bool,
    pub buffer: u8,
}

// The bits between start and stop: the data bits, lowest first, and the parity bit if there is one.
fn word_of(format: Format, character: u8) -> u16
    ensures value { result ≡ word_of format character }
    ensures bound { result < 512 }
{
    let data = data_of(format.length, character as u16) as u16;
    if parity_bit_of(format, character) {
        data + (1 << format.length.bits())
    } else {
        data
    }
}

impl Transmitter {
    /// As open leaves it: nothing to send, and the line at mark.
    pub fn empty() -> Transmitter
        ensures step { result ≡ empty_transmitter }
        ensures sound { sound_transmitter result ≡ true }
    {
        Transmitter {
            state: Sending::Idle,
            xout: true,
            xbre: true,
            buffer: 0,
        }
    }

    /// XSRE: the shift register is empty.
    pub fn xsre(&self) -> bool
        ensures { result ≡ xsre self.now }
    {
        matches!(self.state, Sending::Idle)
    }

    /// A write to bit k of the transmit buffer. Bit 7 resets XBRE as it loads.
    pub fn write_bit(&mut self, k: u16, v: bool)
        ensures step { self.new ≡ buffer_written k v self.old }
        ensures sound { sound_transmitter self.old ≡ true → sound_transmitter self.new ≡ true }
    {
        self.buffer = with_bit::<8>(self.buffer as u16, k, v) as u8;
        if k == 7 {
            self.xbre = false;
        }
    }

    /// A whole character into the transmit buffer.
    pub fn load(&mut self, character: u8)
        requires sound { sound_transmitter self.old ≡ true }
        ensures step { self.new ≡ buffer_loaded character self.old }
        ensures sound { sound_transmitter self.new ≡ true }
    {
        self.buffer = character;
        self.xbre = false;
    }

    /// A reset: idle with XOUT at mark, XBRE 1; the buffer keeps its bits.
    pub fn reset(&mut self)
        ensures step { self.new ≡ reset_transmitter self.old }
        ensures sound { sound_transmitter self.new ≡ true }
    {
        *self = Transmitter {
            buffer: self.buffer,
            ..Transmitter::empty()
        };
    }

    /// One internal clock. `go` tells that RTS and CTS are active.
    // The control register and a rate are two parameters: a chip has one of the first and two of the second, so a struct of both
    // would be made anew at each clock.
    #[tactic(auto, unfolding(crate::specs::Transmit::send))]
    pub fn tick(&mut self, control: u8, rate: u16, brkon: bool, go: bool)
        requires sound { sound_transmitter self.old ≡ true }
        ensures step { self.new ≡ send control rate brkon go self.old }
        ensures sound { sound_transmitter self.new ≡ true }
    {
        match &mut self.state {
            Sending::Element { left, .. } if left.0 > 1 => left.0 -= 1,
            Sending::Stop { left } if left.0 > 1 => left.0 -= 1,
            Sending::Element {
                word,
                count: 0,
                stop,
                ..
            } => {
                self.state = Sending::Stop {
                    left: half_bits_of(rate, stop.half_bits()),
                };
                self.xout = true;
            }
            Sending::Element {
                left,
                word,
                count,
                ..
            } => {
                self.xout = *word % 2 == 1;
                *left = half_bits_of(rate, 2);
                *word /= 2;
                *count -= 1;
            }
            Sending::Idle | Sending::Stop { .. } => {
                self.apply_idle_rules(control, rate, brkon, go)
            }
        }
    }

    // An idle transmitter does what the first rule that fits says: a break, one clock of mark after a break, the start, or mark.
    fn apply_idle_rules(&mut self, control: u8, rate: u16, brkon: bool, go: bool)
        ensures step { self.new ≡ idle_rules control rate brkon go self.old }
        ensures sound { sound_transmitter self.new ≡ true }
    {
        self.state = Sending::Idle;
        if brkon && self.xbre && go {
            self.xout = false;
        } else if !self.xout {
            self.xout = true;
        } else if !self.xbre && go {
            let control = Control::from(control);
            self.state = Sending::Element {
                left: half_bits_of(rate, 2),
                word: word_of(control.format, self.buffer),
                count: control.format.samples(),
                stop: control.stop,
            };
            self.xout = false;
            self.xbre = true;
        }
    }
}
