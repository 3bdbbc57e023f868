// One run of twenty totes.
ghost use Rattle.std.specs.Prelude.{◌≡◌, ◌+◌, is_some, IfOk, nat_lt};
ghost use Rattle.cable.specs.declared.direction.Direction.TheVariants.{TowardB};
ghost use Rattle.cable.specs.Channels.{channel, delay_of};
ghost use Rattle.totes.specs.Times.{moments_of_run};

use crate::board::Board;
use crate::case::Case;
use crate::moment::Moment;
use crate::outcome::Tally;
use crate::scanner::Scanner;
use bench::Bench;
use cable::direction::Direction;
use cable::interface::Cable;
use faults::{Cause, End, Fault};
use pair::event::Event;
use pair::opening::Opening;

// A write to an output bit of an end.
fn write_at(end: End, address: u32, value: u32) -> Event {
    Event {
        end: u32::from(end),
        kind: 1,
        address,
        value,
        served: 0,
    }
}

// A moment in which the board may acknowledge the character that it has read: bit 18 resets RBRL.
fn have_moment<C: Cable>(bench: &mut Bench<C>, acknowledged: bool) -> Result<(), Fault> {
    if acknowledged {
        bench.moment(&mut [write_at(End::B, 18, 0)])
    } else {
        bench.moment(&mut [])
    }
}

/// Runs twenty totes at an interval, over a new cable, and counts what came of their labels. Refused by cause 5 for an interval above
/// 80,000,000, with which the moments could pass the last clock.
pub fn run<C: Cable + Drop>(cable: C, case: Case, interval: u32) -> Result<Tally, Fault>
    ensures moments { IfOk result (λ t. t.moments ≡ moments_of_run case interval (delay_of (channel TowardB (C.meaning cable)))) }
    ensures labels { IfOk result (λ t. t.whole + t.lost + t.damaged ≡ 20) }
    ensures told { IfOk result (λ t. is_some t.first_loss ≡ nat_lt 0 t.lost) }
{
    if interval > 80000000 {
        return Err(Fault::from(Cause::OutOfRange));
    }
    let moments = case.moments(interval, cable.delay(Direction::TowardB));
    let mut bench = Bench::new(cable);
    bench.open(Opening {
        start: 0,
        control: case.control,
        x: case.rate,
        r: case.rate,
        interval: 0,
    })?;
    // both ends are ready to send, so each finds CTS active at the other end of the cable
    bench.moment(&mut [write_at(End::A, 16, 1), write_at(End::B, 16, 1)])?;
    let mut scanner = Scanner::new();
    let mut board = Board::new(case);
    for number in 1..moments {
        let moment = Moment { number };
        scanner.meet(moment, interval);
        scanner.load(&mut bench, case)?;
        let acknowledged = board.look(&bench, moment)?;
        have_moment(&mut bench, acknowledged)?;
        board.notice(&bench, acknowledged)?;
    }
    board.close(&bench, moments)
}
