// Sizes serial lines: reads one line of numbers for each, and prints what the line can carry.
#![tactic(auto)]

use std::io;

mod report;
mod request;
mod words;

use console::lines::for_each_line;
use console::refused::RefusedLine;
use faults::{Cause, Fault};
use report::print_sizes;
use request::Request;

fn print_refusal(rt: &impl Print, number: u64, fault: Fault) -> io::Result<()> {
    rt.println(RefusedLine { number, fault })
}

// Comments are passed on, so that the output can be read by itself.
fn answer(rt: &(impl Print + AllocGlobal), number: u64, line: &[u8]) -> io::Result<()> {
    let Ok(text) = std::str::from_utf8(line) else {
        return print_refusal(rt, number, Fault::from(Cause::BadFields));
    };
    if text.trim().is_empty() || text.starts_with("#") {
        return rt.println(text);
    }
    match Request::read(text) {
        Ok(request) => print_sizes(rt, request, text),
        Err(fault) => print_refusal(rt, number, fault),
    }
}

fn main(rt: HostRuntime) -> anyhow::Result<()> {
    for_each_line(rt.alloc(), rt.stdin(), |number, line| {
        answer(&rt, number, line.as_slice())
    })?;
    Ok(())
}
