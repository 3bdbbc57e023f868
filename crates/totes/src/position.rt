// Which character of which label.
ghost use Rattle.std.specs.Prelude.{◌≡◌, Some};
ghost use Rattle.totes.specs.Outcome.{next_position};
ghost use Rattle.totes.specs.Words.{position_text};

use crate::case::Case;
use std::fmt;

/// The totes of a run.
pub const TOTES: u32 = 20;

/// A character's label and its number in the label, both from 0. Behind the last label stands label 20, which no tote has.
#[derive(Clone, Copy, Debug, PartialEq, Eq)]
pub struct Position {
    pub label: u32,
    pub character: u32,
}

impl Position {
    pub(crate) fn first() -> Position {
        Position {
            label: 0,
            character: 0,
        }
    }

    /// The character that is sent next.
    pub(crate) fn next(self, case: Case) -> Position
        ensures { result ≡ next_position case.length self }
    {
        if self.character < case.length - 1 {
            return Position {
                label: self.label,
                character: self.character + 1,
            };
        }
        Position {
            label: self.label.saturating_add(1).min(TOTES),
            character: 0,
        }
    }
}

impl fmt::Display for Position {
    ghost output = { λ position. Some (position_text position) };

    fn fmt<W: fmt::Write>(&self, f: &mut fmt::Formatter<W>) -> fmt::Result {
        let Position { label, character } = *self;
        write!(f, "character {character} of label {label}")
    }
}
