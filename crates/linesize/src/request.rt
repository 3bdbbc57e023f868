// One line of input: four numbers, then any known figures to compare with.
use console::numbers::number_in;
use faults::{Cause, Fault};
use sizing::line::Line;
use std::num::NonZeroU32;

/// A known figure.
#[derive(Clone, Copy)]
pub(crate) enum Known<'a> {
    /// The format in short form, or the bit rate with two decimals.
    Exact(&'a str),
    /// A nominal rate, in bits a second.
    Nominal(NonZeroU32),
}

/// The numbers as they were written, and the line that they make. The known figures stay in the text, however many they are.
#[derive(Clone, Copy)]
pub(crate) struct Request {
    pub(crate) control: u32,
    pub(crate) rate: u32,
    pub(crate) delay: u32,
    pub(crate) label: u32,
    pub(crate) line: Line,
}

// A decimal number, or a hexadecimal one behind 0x.
fn read_field(field: &str) -> Result<u32, Fault> {
    let number = match field.strip_prefix("0x") {
        Some(digits) => number_in(digits, 16),
        None => number_in(field, 10),
    };
    number.ok_or(Fault::from(Cause::BadFields))
}

impl<'a> Known<'a> {
    /// Any text behind =, or a number above 0 behind ~.
    pub(crate) fn read(field: &'a str) -> Result<Known<'a>, Fault> {
        if let Some(text) = field.strip_prefix("=") {
            return Ok(Known::Exact(text));
        }
        let digits = field.strip_prefix("~").ok_or(Cause::BadFields)?;
        let nominal = NonZeroU32::new(read_field(digits)?).ok_or(Cause::BadFields)?;
        Ok(Known::Nominal(nominal))
    }
}

impl Request {
    /// What a line of input asks for. Nothing of it is printed where any of its fields is at fault.
    pub(crate) fn read(text: &str) -> Result<Request, Fault> {
        let mut fields = text.split_whitespace();
        let mut next = || read_field(fields.next().ok_or(Cause::BadFields)?);
        let control = next()?;
        let rate = next()?;
        let delay = next()?;
        let label = next()?;
        for field in fields {
            Known::read(field)?;
        }
        let line = Line::new(control, rate, delay, label)?;
        Ok(Request {
            control,
            rate,
            delay,
            label,
            line,
        })
    }
}
