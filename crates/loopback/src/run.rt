// One run: a label sent and received by the same chip.
use crate::board::Board;
use crate::request::Request;
use acc::chip::Received;
use std::io;

// More clocks than the longest label takes at the slowest rate.
const CLOCK_LIMIT: u32 = 100000000;

fn when(set: bool, text: &'static str) -> &'static str {
    if set { text } else { "" }
}

fn print_character(
    rt: &impl Print,
    clock: u32,
    what: &str,
    received: Received,
    int: &str,
) -> io::Result<()> {
    let character = received.character;
    let rfer = when(received.rfer, ", RFER");
    let rover = when(received.rover, ", ROVER");
    let rper = when(received.rper, ", RPER");
    println!(rt; "  clock {clock}: {what} {character}{rfer}{rover}{rper}{int}")
}

/// Sends a label and prints what happens.
pub(crate) fn send_label(rt: &impl Print, request: Request<'_>) -> io::Result<()> {
    let Request {
        control,
        rate,
        wait,
        label,
    } = request;
    let length = label.len();
    println!(rt; "control {control}, rate {rate}, wait {wait}, label length {length}")?;
    let mut board = Board::in_test_mode(control, rate);
    let mut to_load = label;
    // a clock may store a character, take one, do both or neither, so both are counted as they come
    let mut stored = 0usize;
    let mut taken = 0usize;
    let mut int_rose = 0u32;
    for clock in 1..=CLOCK_LIMIT {
        if let [character, others @ ..] = to_load
            && board.load(*character)
        {
            to_load = others;
        }
        let clocked = board.clock();
        if clocked.int_rises {
            int_rose = clock;
        }
        if let Some(received) = clocked.stored {
            stored = stored.saturating_add(1);
            print_character(
                rt,
                clock,
                "stored",
                received,
                when(clocked.int_rises, "; INT rises"),
            )?;
        }
        if board.interrupt()
            && clock.saturating_sub(int_rose) >= wait
            && let Some(received) = board.take()
        {
            taken = taken.saturating_add(1);
            print_character(rt, clock, "taken", received, "; INT falls")?;
        }
        if stored >= length && !board.interrupt() {
            return println!(rt; "  {taken} of {length} characters taken after {clock} clocks\n");
        }
    }
    println!(rt; "  the run has not come to its end\n")
}
