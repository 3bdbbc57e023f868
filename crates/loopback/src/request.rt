// One line of input: a control value, a rate, a wait and a label.
use console::numbers::number_in;
use faults::{Cause, Fault};
use std::str;

/// The numbers are in range, and the label has 1 to 80 bytes.
#[derive(Clone, Copy)]
pub(crate) struct Request<'a> {
    pub(crate) control: u8,
    pub(crate) rate: u16,
    pub(crate) wait: u32,
    pub(crate) label: &'a [u8],
}

fn read_field(field: Option<&[u8]>) -> Result<u32, Cause> {
    field
        .and_then(|bytes| str::from_utf8(bytes).ok())
        .and_then(|digits| number_in(digits, 10))
        .ok_or(Cause::BadFields)
}

impl<'a> Request<'a> {
    /// What a line of input asks for. The label is all that stands behind the third space.
    pub(crate) fn read(line: &'a [u8]) -> Result<Request<'a>, Fault> {
        let mut fields = line.splitn(4, |byte| *byte == b' ');
        let control = read_field(fields.next())?;
        let rate = read_field(fields.next())?;
        let wait = read_field(fields.next())?;
        let label = fields.next().ok_or(Cause::BadFields)?;
        if control > 255 || rate > 2047 || wait > 1000000 || label.is_empty() || label.len() > 80 {
            return Err(Fault::from(Cause::OutOfRange));
        }
        Ok(Request {
            control: control as u8,
            rate: rate as u16,
            wait,
            label,
        })
    }
}
