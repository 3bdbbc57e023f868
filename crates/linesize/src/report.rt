// What is printed for one line of input.
ghost use Rattle.std.specs.Prelude.{◌<◌};

use crate::request::{Known, Request};
use crate::words::{InShort, InWords};
use sizing::figures::{Hundredths, SystemClock};
use sizing::line::Line;
use std::alloc::{AllocError, Global};
use std::io;
use std::num::NonZeroU32;
use timing::counts::Divider;

// How a line does at one frequency of φ.
fn print_at(rt: &impl Print, line: Line, clock: SystemClock) -> io::Result<()> {
    let mhz = clock.megahertz();
    let rate = line.bit_rate(clock);
    let deadline = line.deadline_time(clock);
    let labels = line.labels_per_minute(clock);
    println!(rt;
        "  at {mhz} MHz    {rate} bits/s, deadline {deadline} us, {labels} labels a minute"
    )
}

fn verdict(met: bool) -> &'static str {
    if met { "met" } else { "MISSED" }
}

// The parts in 100 of which a rate lies off its nominal value, to the nearest hundredth.
fn percent(off: u64, wanted: u64) -> Hundredths
    requires { 0 < wanted }
{
    Hundredths(off.saturating_mul(10000).saturating_add(wanted / 2) / wanted)
}

// The rate at an internal clock of 1 MHz, at which the chip's makers give their figures.
fn makers_rate(line: Line) -> Hundredths {
    line.bit_rate(SystemClock::for_one_microsecond(line.control().divider))
}

// A nominal rate is met by a rate within one percent of it.
fn print_nominal(rt: &impl Print, line: Line, nominal: NonZeroU32) -> io::Result<()> {
    let rate = makers_rate(line);
    let wanted = 100 * u64::from(nominal.get());
    let (off, side) = if rate.0 < wanted {
        (wanted - rate.0, "below")
    } else {
        (rate.0 - wanted, "above")
    };
    let met = verdict(off.saturating_mul(100) <= wanted);
    let percent = percent(off, wanted);
    println!(rt; "  known       {nominal} bits/s, nominal: {met}, {percent} % {side}")
}

// Whether a figure is the format in short form, or the rate with its two decimals.
fn is_exact(heap: Global, line: Line, figure: &str) -> Result<bool, AllocError> {
    let format = format!(in heap; "{}", InShort(line.control()))?;
    let rate = format!(in heap; "{}", makers_rate(line))?;
    Ok(figure == format.as_str() || figure == rate.as_str())
}

fn print_exact(rt: &(impl Print + AllocGlobal), line: Line, figure: &str) -> io::Result<()> {
    let met = verdict(is_exact(rt.alloc(), line, figure)?);
    println!(rt; "  known       {figure}: {met}")
}

fn print_known(rt: &(impl Print + AllocGlobal), line: Line, known: Known<'_>) -> io::Result<()> {
    match known {
        Known::Exact(figure) => print_exact(rt, line, figure),
        Known::Nominal(nominal) => print_nominal(rt, line, nominal),
    }
}

/// Everything about one line, and whether the known figures are met.
pub(crate) fn print_sizes(
    rt: &(impl Print + AllocGlobal),
    request: Request,
    text: &str,
) -> io::Result<()> {
    let Request {
        control,
        rate,
        delay,
        label,
        line,
    } = request;
    let decoded = line.control();
    let q = decoded.divider.q();
    let half = line.half_bit().0;
    let bit = line.bit().0;
    let character = line.character().0;
    let deadline = line.deadline().0;
    println!(rt; "control {control}, rate {rate}, cable delay {delay}, label length {label}")?;
    println!(rt; "  format      {}", InWords(decoded))?;
    println!(rt; "  half bit    H = {half}, in internal clocks of q = {q} phi clocks")?;
    println!(rt; "  bit         {bit} phi clocks")?;
    println!(rt; "  character   {character} phi clocks back to back")?;
    println!(rt; "  deadline    {deadline} phi clocks")?;
    print_at(rt, line, SystemClock::Mhz3)?;
    if decoded.divider == Divider::By4 {
        print_at(rt, line, SystemClock::Mhz4)?;
    }
    for field in text.split_whitespace().skip(4) {
        if let Ok(known) = Known::read(field) {
            print_known(rt, line, known)?;
        }
    }
    println!(rt; "")
}
