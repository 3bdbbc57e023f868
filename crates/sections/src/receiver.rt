// The receiver: the level that it last saw, the character that is coming in, and the receive buffer with its flags.
ghost use Rattle.std.specs.Prelude.{◌≡◌, true};
ghost use Rattle.sections.specs.Receive.{listen, odd_held, rsbd, rfbd, idle_receiver, released, reset_receiver, sound_receiver};

use crate::bits::with_bit_above;
use std::mem;
use timing::counts::InternalCount;
use timing::ones::{data_of, odd_ones, parity_for};
use timing::registers::{Control, Format, half_bits_of};

/// What a receiver is at. The format is fixed at the start sample.
#[derive(Clone, Copy)]
pub enum Receiving {
    Idle,
    /// The line fell; the start sample comes after `left` more internal clocks.
    Half {
        left: InternalCount,
    },
    /// The start sample was space. `taken` samples stand in the low bits of `held`, and the next comes after `left` more
    /// internal clocks.
    Character {
        format: Format,
        left: InternalCount,
        held: u16,
        taken: u8,
    },
}

/// The receiver. RSBD and RFBD follow from its state.
#[derive(Clone, Copy)]
pub struct Receiver {
    pub state: Receiving,
    pub seen: bool,
    pub buffer: u8,
    /// A character waits. It is no `Option` round the buffer, whose bits can be read where none waits.
    pub rbrl: bool,
    pub rfer: bool,
    pub rover: bool,
    pub rper: bool,
}

// Whether an odd number of the samples held, at most nine, are mark.
#[tactic(auto, using(crate::proofs::Nine::odd_nine))]
fn is_odd(held: u16) -> bool
    ensures { result ≡ odd_held held }
{
    odd_ones((held / 2 % 256) as u8) != (held % 2 == 1)
}

impl Receiver {
    /// As open leaves it: idle, having seen mark, with nothing received.
    pub fn idle() -> Receiver
        ensures step { result ≡ idle_receiver }
        ensures sound { sound_receiver result ≡ true }
    {
        Receiver {
            state: Receiving::Idle,
            seen: true,
            buffer: 0,
            rbrl: false,
            rfer: false,
            rover: false,
            rper: false,
        }
    }

    /// RSBD: a start sample of space was taken, and the stop sample is to come.
    pub fn rsbd(&self) -> bool
        ensures { result ≡ rsbd self.now }
    {
        matches!(self.state, Receiving::Character { .. })
    }

    /// RFBD: the first sample after the start was taken, and the stop sample is to come.
    pub fn rfbd(&self) -> bool
        ensures { result ≡ rfbd self.now }
    {
        matches!(self.state, Receiving::Character { taken, .. } if taken > 0)
    }

    /// The received character has been seen: RBRL becomes 0.
    pub fn release(&mut self)
        ensures step { self.new ≡ released self.old }
        ensures sound { sound_receiver self.old ≡ true → sound_receiver self.new ≡ true }
    {
        self.rbrl = false;
    }

    /// A reset: idle having seen space, no flag set; the buffer keeps its bits.
    pub fn reset(&mut self)
        ensures step { self.new ≡ reset_receiver self.old }
        ensures sound { sound_receiver self.new ≡ true }
    {
        *self = Receiver {
            seen: false,
            buffer: self.buffer,
            ..Receiver::idle()
        };
    }

    /// One internal clock, at which the line has this level.
    #[tactic(auto, unfolding(crate::specs::Receive::listen))]
    pub fn tick(&mut self, control: u8, rate: u16, level: bool)
        requires sound { sound_receiver self.old ≡ true }
        ensures step { self.new ≡ listen control rate level self.old }
        ensures sound { sound_receiver self.new ≡ true }
    {
        let seen = mem::replace(&mut self.seen, level);
        match (&mut self.state, level) {
            (Receiving::Idle, false) if seen => {
                self.state = Receiving::Half {
                    left: half_bits_of(rate, 1),
                };
            }
            (Receiving::Idle, _) => {}
            (Receiving::Half { left }, _) if left.0 > 1 => left.0 -= 1,
            (Receiving::Half { .. }, true) => self.state = Receiving::Idle,
            (Receiving::Half { .. }, false) => {
                self.state = Receiving::Character {
                    format: Control::from(control).format,
                    left: half_bits_of(rate, 2),
                    held: 0,
                    taken: 0,
                };
            }
            (Receiving::Character { left, .. }, _) if left.0 > 1 => left.0 -= 1,
            (
                Receiving::Character {
                    format,
                    left,
                    held,
                    taken,
                },
                _,
            ) if *taken < format.samples() => {
                *left = half_bits_of(rate, 2);
                *held = with_bit_above(*held, *taken, level);
                *taken += 1;
            }
            // The stop sample: the character is stored right-justified, with its flags.
            (Receiving::Character { format, held, .. }, _) => {
                self.buffer = data_of(format.length, *held);
                self.rover = self.rbrl;
                // Wrong where data and parity bit together would need one more bit for their parity.
                self.rper = parity_for(format.parity, is_odd(*held));
                self.rfer = !level;
                self.rbrl = true;
                self.state = Receiving::Idle;
            }
        }
    }
}
