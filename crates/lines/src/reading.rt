// A line of a script is read: its closing byte, its length, its letter and its fields.
ghost use Rattle.std.specs.Prelude.{◌≡◌, ◌+◌, ◌-◌, ◌*◌, ◌≤◌, length, Ok, Err, ◌∷◌, MatchResult};
ghost use Rattle.std.specs.Option.{SomeIff};
ghost use Rattle.lines.specs.Accepted.{ItsText, CommandsAccepted};
ghost use Rattle.lines.specs.Format.{largest, opens_field, text_of_line, parsed};
ghost use Rattle.lines.specs.Rest.{digits_onto, first_field, fields, command_by_rest};

use crate::command::Command;
use faults::Cause;

// Whether a number begins here: a digit, and no digit behind a 0.
fn opens(text: &[u8]) -> bool
    ensures { result ≡ opens_field (32 ∷ text.now) 0 }
{
    match text {
        [b'0', second, ..] => !second.is_ascii_digit(),
        [first, ..] => first.is_ascii_digit(),
        [] => false,
    }
}

// A number with one digit more, where it is not too large.
fn with_digit(number: u32, digit: u8) -> Option<u32>
    requires { 48 ≤ digit }
    ensures { SomeIff result (number * 10 + (digit - 48) ≤ largest) (number * 10 + (digit - 48)) }
{
    number.checked_mul(10)?.checked_add(u32::from(digit - b'0'))
}

// The number that the digits at the front of a text write, and the text behind them. With `str::from_utf8` and `parse` each digit is read three
// times, and a line with four numbers takes a third longer.
#[tactic(auto, using(crate::proofs::Digits::digit_steps))]
fn read_digits(text: &[u8]) -> Result<(u32, &[u8]), Cause>
    ensures { MatchResult result (λ p. digits_onto 0 text.now ≡ Ok (p.0, p.1.now)) (λ c. digits_onto 0 text.now ≡ Err c) }
{
    let mut number = 0;
    let mut rest = text;
    while let Some((digit @ b'0'..=b'9', behind)) = rest.split_first() {
        number = with_digit(number, *digit).ok_or(Cause::BadFields)?;
        rest = behind;
    }
    Ok((number, rest))
}

// The number of the field that a text begins with, and the text behind it.
#[tactic(auto, using(crate::proofs::Digits::field_steps))]
fn read_field(text: &[u8]) -> Result<(u32, &[u8]), Cause>
    ensures { MatchResult result (λ p. first_field text.now ≡ Ok (p.0, p.1.now)) (λ c. first_field text.now ≡ Err c) }
{
    let Some((b' ', text)) = text.split_first() else {
        return Err(Cause::BadFields);
    };
    if !opens(text) {
        return Err(Cause::BadFields);
    }
    read_digits(text)
}

// The numbers of a text of so many fields, with nothing behind them.
#[tactic(auto, using(crate::proofs::FieldLists::field_steps))]
fn read_fields<const N: usize>(text: &[u8]) -> Result<[u32; N], Cause>
    ensures { result ≡ fields N text.now }
{
    let mut numbers = [0; N];
    let mut rest = text;
    for number in &mut numbers {
        (*number, rest) = read_field(rest)?;
    }
    if rest.is_empty() {
        Ok(numbers)
    } else {
        Err(Cause::BadFields)
    }
}

// The command of a text, by its letter.
fn read_command(text: &[u8]) -> Result<Command, Cause>
    ensures { result ≡ command_by_rest text.now }
{
    let Some((letter, rest)) = text.split_first() else {
        return Err(Cause::UnknownCommand);
    };
    match *letter as char {
        'O' => {
            let [control, x, r, interval] = read_fields::<4>(rest)?;
            Ok(Command::Open {
                control,
                x,
                r,
                interval,
            })
        }
        'M' => {
            let [n] = read_fields::<1>(rest)?;
            Ok(Command::Moments { n })
        }
        'P' => {
            let [end, address, count, value] = read_fields::<4>(rest)?;
            Ok(Command::Put {
                end,
                address,
                count,
                value,
            })
        }
        'G' => {
            let [end, address, count] = read_fields::<3>(rest)?;
            Ok(Command::Get {
                end,
                address,
                count,
            })
        }
        'L' => {
            let [end, character] = read_fields::<2>(rest)?;
            Ok(Command::Load { end, character })
        }
        'T' => {
            let [end] = read_fields::<1>(rest)?;
            Ok(Command::Take { end })
        }
        _ => Err(Cause::UnknownCommand),
    }
}

// A line without its closing byte, if it has one, unless it is too long.
fn text_of(line: &[u8]) -> Result<&[u8], Cause>
    ensures { MatchResult result (λ text. (text.now ≡ text_of_line line.now) × (length text.now ≤ 80)) (λ c. parsed line.now ≡ Err c) }
{
    let text = line.strip_suffix(b"\n").unwrap_or(line);
    if text.len() > 80 {
        return Err(Cause::LineTooLong);
    }
    Ok(text)
}

/// The command of a line, with or without its closing byte 10, or the cause why it has none: 1, 2 or 3. A line that is accepted is the text
/// of its command, byte for byte.
pub fn parse(line: &[u8]) -> Result<Command, Cause>
    ensures answer { result ≡ parsed line.now }
    ensures text { ItsText line.now result }
{
    read_command(text_of(line)?)
}

/// The text of every command, with and without a closing byte 10, is accepted and read as that command.
pub fn every_command_is_read()
    ensures { CommandsAccepted }
{}
