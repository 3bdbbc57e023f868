// Drives benches over all three cables from standard input, call by call, with events in their moments.
#![tactic(auto)]

mod answers;
mod session;

use answers::show_done;
use cable::delaying::Delaying;
use cable::disturbed::Disturbed;
use cable::interface::Cable;
use cable::straight::Straight;
use console::lines::for_each_line;
use faults::Fault;
use session::{Session, first_numbers, flips, read_numbers};

// Shows whether a cable was set, and serves the calls of a bench over it.
fn serve<C: Cable + Drop>(
    rt: &(impl Print + AllocGlobal),
    cable: C,
    setting: Result<(), Fault>,
    calls: &[Vec<u8>],
) -> anyhow::Result<()> {
    show_done(rt, setting)?;
    Session::new(cable).run(rt, calls)
}

// A line that begins with C makes a cable.
fn begin(rt: &(impl Print + AllocGlobal), line: &[u8], calls: &[Vec<u8>]) -> anyhow::Result<()> {
    let numbers = read_numbers(rt.alloc(), line)?;
    if line.starts_with(b"C d") {
        let [toward_b, toward_a]: [u32; 2] = first_numbers(numbers.as_slice());
        let mut cable = Delaying::new();
        let setting = cable.set_lengths(toward_b, toward_a);
        serve(rt, cable, setting, calls)
    } else if line.starts_with(b"C f") {
        let (toward_b, toward_a) = flips(numbers.as_slice());
        let mut cable = Disturbed::new();
        let setting = cable.set_flips(toward_b, toward_a);
        serve(rt, cable, setting, calls)
    } else {
        serve(rt, Straight, Ok(()), calls)
    }
}

fn main(rt: HostRuntime) -> anyhow::Result<()> {
    let mut lines = Vec::new(rt.alloc());
    for_each_line(rt.alloc(), rt.stdin(), |_, line| -> anyhow::Result<()> {
        Ok(lines.push(line)?)
    })?;
    // each line that makes a cable stands before the calls of a bench over it
    for group in lines.chunk_by(|_, line| !line.starts_with(b"C")) {
        if let [line, calls @ ..] = group
            && line.starts_with(b"C")
        {
            begin(&rt, line.as_slice(), calls)?;
        }
    }
    Ok(())
}
