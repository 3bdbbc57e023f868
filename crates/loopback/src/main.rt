// One chip in test mode sends itself a label: when each character is stored, its flags, and what INT does.
#![tactic(auto)]

use std::io;
use std::io::Write;

mod board;
mod request;
mod run;

use console::lines::for_each_line;
use console::refused::RefusedLine;
use request::Request;
use run::send_label;

// Comments are passed on, so that the output can be read by itself.
fn pass_on(rt: &impl Print, line: &[u8]) -> io::Result<()> {
    let mut out = io::writer(rt);
    out.write_all(line)?;
    out.write_all(b"\n")
}

fn answer(rt: &impl Print, number: u64, line: &[u8]) -> io::Result<()> {
    if line.is_empty() || line.starts_with(b"#") {
        return pass_on(rt, line);
    }
    match Request::read(line) {
        Ok(request) => send_label(rt, request),
        Err(fault) => rt.println(RefusedLine { number, fault }),
    }
}

fn main(rt: HostRuntime) -> anyhow::Result<()> {
    for_each_line(rt.alloc(), rt.stdin(), |number, line| {
        answer(&rt, number, line.as_slice())
    })?;
    Ok(())
}
