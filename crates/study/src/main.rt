// How close may totes come? Reads cases from standard input, one a line, and prints a table for each.
#![tactic(auto)]

use std::io;

mod cables;
mod report;
mod request;

use console::lines::for_each_line;
use report::print_study;
use request::Request;

fn answer(rt: &impl Print, number: u64, line: &[u8]) -> io::Result<()> {
    match Request::read(line) {
        Ok(request) => print_study(rt, number, request),
        Err(fault) => println!(rt; "line {number}: {fault}"),
    }
}

fn main(rt: HostRuntime) -> anyhow::Result<()> {
    for_each_line(rt.alloc(), rt.stdin(), |number, line| {
        answer(&rt, number, line.as_slice())
    })?;
    Ok(())
}
