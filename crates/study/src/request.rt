// One line of input: a case and the cable that it is studied over.
use crate::cables::CableKind;
use console::numbers::{NumberError, read_number};
use faults::Fault;
use std::str;
use thiserror::Error;
use totes::case::Case;

/// What is wrong with a line.
#[derive(Debug, Drop, Error)]
pub(crate) enum RequestFault {
    #[error("the case has seven fields")]
    BadForm,
    #[error(transparent)]
    Refused(#[from] Fault),
}

/// A case and its cable, with all numbers in range.
#[derive(Clone, Copy)]
pub(crate) struct Request {
    pub(crate) case: Case,
    pub(crate) cable: CableKind,
}

// Decimal digits. A number that is too large for its type is outside every range, and so is the largest of the type.
fn read_field(field: Option<&[u8]>) -> Result<u32, RequestFault> {
    let digits = field
        .and_then(|bytes| str::from_utf8(bytes).ok())
        .ok_or(RequestFault::BadForm)?;
    read_number(digits, 10).or_else(|error| match error {
        NumberError::TooLarge => Ok(u32::MAX),
        NumberError::NotDigits => Err(RequestFault::BadForm),
    })
}

impl Request {
    /// What a line of input asks for. The form of all seven fields is looked at before any range.
    pub(crate) fn read(line: &[u8]) -> Result<Request, RequestFault> {
        let mut fields = line.splitn(7, |byte| *byte == b' ');
        let control = read_field(fields.next())?;
        let rate = read_field(fields.next())?;
        let name = fields.next().ok_or(RequestFault::BadForm)?;
        let number = read_field(fields.next())?;
        let length = read_field(fields.next())?;
        let look = read_field(fields.next())?;
        let work = read_field(fields.next())?;
        let cable = CableKind::named(name, number)?;
        let case = Case::new(control, rate, length, look, work)?;
        Ok(Request { case, cable })
    }
}
