// Drives a bench over the straight cable from standard input: one line of text in, one line out.
#![tactic(auto)]

use console::lines::for_each_line;
use script::Script;
use std::io;
use std::io::Write;

// The room for one answer, the least that a script takes.
const ROOM: usize = 64;

// A script refuses no call with this much room, which is proved of the `unwrap`.
fn answer(rt: &impl Print, script: &mut Script, line: &[u8]) -> io::Result<()> {
    let mut buffer = [0; ROOM];
    let n = script.answer_line(line, &mut buffer).unwrap();
    io::writer(rt).write_all(&buffer[..n])
}

fn main(rt: HostRuntime) -> anyhow::Result<()> {
    let mut script = Script::new();
    for_each_line(
        rt.alloc(),
        rt.stdin(),
        |_, line| answer(&rt, &mut script, line.as_slice()),
    )?;
    Ok(())
}
