// Drives one chip from standard input, and shows after each call all that can be seen of it.
#![tactic(auto)]

use std::io;

mod board;
mod commands;

use board::Board;
use commands::read_command;
use console::lines::for_each_line;

fn answer(rt: &impl Print, board: &mut Board, line: &[u8]) -> io::Result<()> {
    let Some(command) = read_command(line) else {
        return println!(rt; "?");
    };
    match board.execute(command) {
        Ok(answer) => print!(rt; "{answer}")?,
        Err(cause) => print!(rt; "refused {}", u32::from(cause))?,
    }
    let inputs = board.inputs();
    let xout = u8::from(board.xout());
    println!(rt; " {inputs} {xout}")
}

fn main(rt: HostRuntime) -> anyhow::Result<()> {
    let mut board = Board::new();
    for_each_line(rt.alloc(), rt.stdin(), |_, line| {
        answer(&rt, &mut board, line.as_slice())
    })?;
    Ok(())
}
