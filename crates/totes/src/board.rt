// The merge board, at end B, and what is kept of the labels that come to it.
ghost use Rattle.std.specs.Prelude.{◌≡◌, ◌+◌, is_some, IfOk, nat_lt};
ghost use Rattle.totes.specs.Outcome.{lost_by_store, busy_after};

use crate::case::Case;
use crate::inputs::{RBRL, RFER, ROVER, RPER, RSBD, input};
use crate::log::Log;
use crate::moment::Moment;
use crate::outcome::{Flags, Loss, LossKind, Tally, is_damaged};
use crate::position::{Position, TOTES};
use bench::Bench;
use cable::interface::Cable;
use faults::{End, Fault};
use std::mem;
use timing::registers::bit_of;

/// Characters are stored in the order in which they were loaded, so it is enough to know which one is stored next, and whether the one
/// that was stored last is still unread.
#[derive(Clone, Copy)]
pub(crate) struct Board {
    case: Case,
    /// The last moment before which the board is at work.
    busy_until: u32,
    /// RSBD as the last moment left it: a character is stored when it falls.
    rsbd: bool,
    next: Position,
    unread: Option<Position>,
    log: Log,
}

// The receiver's flags at end B.
fn flags<C: Cable>(bench: &Bench<C>) -> Result<Flags, Fault> {
    let bits = bench.get(u32::from(End::B), RPER, 12)?;
    Ok(Flags {
        rper: bit_of(bits, 0),
        rover: bit_of(bits, ROVER - RPER),
        rfer: bit_of(bits, RFER - RPER),
        rbrl: bit_of(bits, RBRL - RPER),
    })
}

// What is lost where a character is stored, in a moment in which the one before it was acknowledged or not. At most one is: the board
// acknowledges only what it has read.
fn lost_by_store(
    unread: Option<Position>,
    stored: Position,
    acknowledged: bool,
) -> Option<(Position, LossKind)>
    ensures { result ≡ lost_by_store unread stored acknowledged }
{
    match unread {
        Some(before) => Some((before, LossKind::Overwritten)),
        None if acknowledged => Some((stored, LossKind::Missed)),
        None => None,
    }
}

// The last moment before which the board is at work, once it has read a character before a moment.
fn busy_after(case: Case, position: Position, moment: Moment, busy_until: u32) -> u32
    ensures { result ≡ busy_after case.length case.work position moment.number busy_until }
{
    if position.character < case.length - 1 {
        busy_until
    } else {
        moment.number + case.work
    }
}

impl Board {
    pub(crate) fn new(case: Case) -> Board {
        Board {
            case,
            busy_until: 0,
            rsbd: false,
            next: Position::first(),
            unread: None,
            log: Log::new(),
        }
    }

    fn lose<C: Cable>(
        &mut self,
        bench: &Bench<C>,
        position: Position,
        kind: LossKind,
    ) -> Result<(), Fault> {
        let flags = flags(bench)?;
        self.log.lose(Loss {
            clock: bench.clock(),
            position,
            kind,
            flags,
        });
        Ok(())
    }

    // The character that waited was read before a moment. Its code is its number in the label, below 32, so that no character is too
    // short for it. After the last one of a label the board goes to work.
    fn read(&mut self, position: Position, bits: u16, moment: Moment) {
        let code = u32::from(bits % 256);
        let rper = bit_of(bits, RPER);
        let rfer = bit_of(bits, RFER);
        if is_damaged(position.character, code, rper, rfer) {
            self.log.damage(position.label);
        }
        self.busy_until = busy_after(self.case, position, moment, self.busy_until);
    }

    /// Before a moment: if the board looks and finds a character, it reads it. Tells whether it does, and so acknowledges it in that moment.
    pub(crate) fn look<C: Cable>(
        &mut self,
        bench: &Bench<C>,
        moment: Moment,
    ) -> Result<bool, Fault> {
        if !self.case.looks_before(moment, self.busy_until) || !input(bench, End::B, RBRL)? {
            return Ok(false);
        }
        let bits = bench.get(u32::from(End::B), 0, 13)?;
        if let Some(position) = self.unread.take() {
            self.read(position, bits, moment);
        }
        Ok(true)
    }

    // A character was stored, in a moment in which the one before it was acknowledged or not.
    fn store<C: Cable>(&mut self, bench: &Bench<C>, acknowledged: bool) -> Result<(), Fault> {
        let stored = self.next;
        let lost = lost_by_store(self.unread, stored, acknowledged);
        self.next = stored.next(self.case);
        self.unread = if acknowledged { None } else { Some(stored) };
        if let Some((position, kind)) = lost {
            self.lose(bench, position, kind)?;
        }
        Ok(())
    }

    /// After a moment: notices a character that was stored in it.
    pub(crate) fn notice<C: Cable>(
        &mut self,
        bench: &Bench<C>,
        acknowledged: bool,
    ) -> Result<(), Fault> {
        let rsbd = input(bench, End::B, RSBD)?;
        let before = mem::replace(&mut self.rsbd, rsbd);
        if before && !rsbd {
            self.store(bench, acknowledged)?;
        }
        Ok(())
    }

    /// After the last of so many moments: what was not read by now is lost, be it in the receive buffer or not even stored. Tells what came
    /// of all labels.
    pub(crate) fn close<C: Cable>(mut self, bench: &Bench<C>, moments: u32) -> Result<Tally, Fault>
        ensures moments { IfOk result (λ tally. tally.moments ≡ moments) }
        ensures labels { IfOk result (λ tally. tally.whole + tally.lost + tally.damaged ≡ 20) }
        ensures told { IfOk result (λ tally. is_some tally.first_loss ≡ nat_lt 0 tally.lost) }
    {
        if let Some(position) = self.unread {
            self.lose(bench, position, LossKind::NeverRead)?;
        }
        let next = self.next;
        self.lose(bench, next, LossKind::NeverRead)?;
        for label in next.label..TOTES {
            let position = Position {
                label,
                character: 0,
            };
            self.lose(bench, position, LossKind::NeverRead)?;
        }
        Ok(self.log.tally(moments))
    }
}
