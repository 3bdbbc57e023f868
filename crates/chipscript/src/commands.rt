// A line of input as a call.
use acc::chip::Registers;
use arrayvec::ArrayVec;
use console::numbers::number_in;

/// The calls, with their numbers in range.
#[derive(Clone, Copy)]
pub(crate) enum Command {
    Open(Registers),
    Write(u8, bool),
    Clock(u32, bool, bool),
    SetDsr(bool),
    Put(u8, u8, u16),
    Get(u8, u8),
    Load(u8),
    Take,
}

fn bit(n: u32) -> Option<bool> {
    match n {
        0 => Some(false),
        1 => Some(true),
        _ => None,
    }
}

fn byte(n: u32) -> Option<u8> {
    u8::try_from(n).ok()
}

fn rate(n: u32) -> Option<u16> {
    u16::try_from(n).ok().filter(|rate| *rate <= 2047)
}

fn address(n: u32) -> Option<u8> {
    byte(n).filter(|address| *address <= 31)
}

// An address, and a count of bits that does not pass the last.
fn span(address: u32, count: u32) -> Option<(u8, u8)> {
    if count == 0 || count > 16 || address > 32 - count {
        return None;
    }
    Some((byte(address)?, byte(count)?))
}

/// A letter and as many decimal numbers as its call has, each behind white space.
pub(crate) fn read_command(line: &[u8]) -> Option<Command> {
    let text = std::str::from_utf8(line).ok()?;
    let mut words = text.split_whitespace();
    let letter = words.next()?;
    let mut numbers = ArrayVec::<u32, 4>::new();
    for word in words {
        let number = number_in(word, 10)?;
        numbers.try_push(number).ok()?;
    }
    match (letter, numbers.as_slice()) {
        ("O", [control, transmit_rate, receive_rate, interval]) => Some(Command::Open(Registers {
            control: byte(*control)?,
            transmit_rate: rate(*transmit_rate)?,
            receive_rate: rate(*receive_rate)?,
            interval: byte(*interval)?,
        })),
        ("W", [at, value]) => Some(Command::Write(address(*at)?, bit(*value)?)),
        ("C", [n, rin, cts]) => Some(Command::Clock(*n, bit(*rin)?, bit(*cts)?)),
        ("D", [active]) => Some(Command::SetDsr(bit(*active)?)),
        ("P", [from, count, value]) => {
            let (from, count) = span(*from, *count)?;
            Some(Command::Put(from, count, u16::try_from(*value).ok()?))
        }
        ("G", [from, count]) => {
            let (from, count) = span(*from, *count)?;
            Some(Command::Get(from, count))
        }
        ("L", [character]) => Some(Command::Load(byte(*character)?)),
        ("T", []) => Some(Command::Take),
        _ => None,
    }
}
