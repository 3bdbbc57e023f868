// A bench over the straight cable that is driven by lines of text.
#![tactic(auto)]

ghost use Rattle.std.specs.Prelude.{◌≡◌, ◌<◌, ◌≤◌, IfOk};
ghost use Rattle.cable.specs.Delay.{straight_channels};
ghost use Rattle.lines.specs.Format.{parsed};
ghost use Rattle.script.specs.Script.{fresh, obeyed, left_by, line_answer, line_left, line_reply, line_state, call_answer, call_buffer, call_state};

use bench::Bench;
use cable::straight::Straight;
use faults::{Cause, Fault};
use lines::command::Command;
use lines::reading::parse;
use lines::reply::Reply;
use pair::opening::Opening;
use std::marker::Model;

/// A bench, and how many lines were read.
#[derive(Drop)]
pub struct Script {
    bench: Bench<Straight>,
    lines: u32,
}

impl Model for Script {
    ghost use Rattle.std.specs.Prelude.{◌≡◌};
    ghost use Rattle.cable.specs.Delay.{straight_channels};
    ghost use Rattle.script.specs.State.{State};

    ghost Value = { State };

    ghost view = { λ s. record { bench = s.bench.meaning; lines = s.lines } };

    ghost invariant = { λ s. s.bench.meaning.channels ≡ straight_channels };
}

impl Script {
    /// A bench that is not open yet, before its first line.
    pub fn new() -> Script
        ensures { result ≡ fresh }
    {
        Script {
            bench: Bench::new(Straight),
            lines: 0,
        }
    }

    // One call of the bench.
    #[tactic(auto, using(crate::proofs::Straight::moves_straight))]
    fn obey(&mut self, command: Command) -> Result<Reply, Fault>
        ensures answer { result ≡ obeyed command self.old.bench }
        ensures bench { self.new.bench ≡ left_by command self.old.bench }
        ensures lines { self.new.lines ≡ self.old.lines }
    {
        match command {
            Command::Open {
                control,
                x,
                r,
                interval,
            } => {
                let opening = Opening {
                    start: 0,
                    control,
                    x,
                    r,
                    interval,
                };
                self.bench.open(opening).map(|()| Reply::Done)
            }
            Command::Moments { n } => self.bench.moments(n).map(|()| Reply::Done),
            Command::Put {
                end,
                address,
                count,
                value,
            } => self
                .bench
                .put(end, address, count, value)
                .map(|()| Reply::Done),
            Command::Get {
                end,
                address,
                count,
            } => self
                .bench
                .get(end, address, count)
                .map(|bits| Reply::Number(bits.into())),
            Command::Load { end, character } => self
                .bench
                .load(end, character)
                .map(|()| Reply::Done),
            Command::Take { end } => self.bench.take(end).map(Reply::Character),
        }
    }

    // Reads a line and obeys its command.
    fn answer(&mut self, line: &[u8]) -> Result<Reply, Fault>
        ensures answer { result ≡ line_answer (parsed line.now) self.old.bench }
        ensures bench { self.new.bench ≡ line_left (parsed line.now) self.old.bench }
        ensures lines { self.new.lines ≡ self.old.lines }
    {
        self.obey(parse(line)?)
    }

    // The reply to a line, which counts whatever it is.
    fn reply(&mut self, line: &[u8]) -> Reply
        requires { self.old.lines < 1000000 }
        ensures answer { result ≡ line_reply line.now self.old }
        ensures state { self.new ≡ line_state line.now self.old }
    {
        self.lines += 1;
        self.answer(line)
            .unwrap_or_else(|fault| Reply::Refused(self.lines, fault))
    }

    /// Reads a line, with or without its closing byte 10, and writes the reply's line to the front of a buffer of at least 64 bytes. Answers
    /// its length, or 0 where the script has read 1,000,000 lines. Refused by cause 5 where the buffer is shorter; then the line is not read.
    pub fn answer_line(&mut self, line: &[u8], out: &mut [u8]) -> Result<usize, Fault>
        ensures answer { result ≡ call_answer line.now out.old self.old }
        ensures buffer { out.new ≡ call_buffer line.now out.old self.old }
        ensures state { self.new ≡ call_state line.now out.old self.old }
        ensures straight { self.old.bench.channels ≡ straight_channels }
        ensures short { IfOk result (λ n. n ≤ 64) }
    {
        // What is true of every script, for the clause on its cable.
        let _ = &self.lines;
        if out.len() < 64 {
            return Err(Fault::from(Cause::OutOfRange));
        }
        // A length of 0 is what a host in C reads here; every answer is longer.
        if self.lines >= 1000000 {
            return Ok(0);
        }
        self.reply(line).write(out)
    }
}
