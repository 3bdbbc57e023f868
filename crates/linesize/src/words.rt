// A character's format in words and in the short form of the field, as 7E1.
ghost use Rattle.std.specs.Prelude.{◌≡◌, Some};
ghost use Rattle.linesize.specs.Words.{parity_text, stop_text, format_text, parity_letter, stop_figure, format_short};

use std::fmt;
use timing::registers::{Control, Parity, StopLength};

// A parity and a stop are written in two forms each: four functions are shorter than four types with a Display.
fn parity_text(parity: Parity) -> &'static str
    ensures { result.now ≡ parity_text parity }
{
    match parity {
        Parity::Disabled => "no parity",
        Parity::Even => "even parity",
        Parity::Odd => "odd parity",
    }
}

fn stop_text(stop: StopLength) -> &'static str
    ensures { result.now ≡ stop_text stop }
{
    match stop {
        StopLength::One => "1 stop bit",
        StopLength::OneAndHalf => "1.5 stop bits",
        StopLength::Two => "2 stop bits",
    }
}

/// A format in words, as `7 bits, even parity, 1 stop bit`.
#[derive(Clone, Copy)]
pub(crate) struct InWords(pub(crate) Control);

impl fmt::Display for InWords {
    ghost output = { λ x. Some (format_text x.0) };

    fn fmt<W: fmt::Write>(&self, f: &mut fmt::Formatter<W>) -> fmt::Result {
        let bits = self.0.format.length.bits();
        let parity = parity_text(self.0.format.parity);
        let stop = stop_text(self.0.stop);
        write!(f, "{bits} bits, {parity}, {stop}")
    }
}

fn parity_letter(parity: Parity) -> &'static str
    ensures { result.now ≡ parity_letter parity }
{
    match parity {
        Parity::Disabled => "N",
        Parity::Even => "E",
        Parity::Odd => "O",
    }
}

fn stop_figure(stop: StopLength) -> &'static str
    ensures { result.now ≡ stop_figure stop }
{
    match stop {
        StopLength::One => "1",
        StopLength::OneAndHalf => "1.5",
        StopLength::Two => "2",
    }
}

/// A format in its short form, as `7E1`: data bits, then N, E or O for the parity, then the stop bits.
#[derive(Clone, Copy)]
pub(crate) struct InShort(pub(crate) Control);

impl fmt::Display for InShort {
    ghost output = { λ x. Some (format_short x.0) };

    fn fmt<W: fmt::Write>(&self, f: &mut fmt::Formatter<W>) -> fmt::Result {
        let bits = self.0.format.length.bits();
        let parity = parity_letter(self.0.format.parity);
        let stop = stop_figure(self.0.stop);
        write!(f, "{bits}{parity}{stop}")
    }
}
