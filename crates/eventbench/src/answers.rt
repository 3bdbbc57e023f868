// What calls answer, as lines of text.
use faults::Fault;
use pair::event::Event;
use std::{fmt, io};

/// The serving numbers of an accepted moment's events.
#[derive(Clone, Copy)]
pub(crate) struct Served<'a>(pub(crate) &'a [Event]);

impl fmt::Display for Served<'_> {
    fn fmt<W: fmt::Write>(&self, f: &mut fmt::Formatter<W>) -> fmt::Result {
        write!(f, "ok")?;
        for event in self.0 {
            write!(f, " {}", event.served)?;
        }
        Ok(())
    }
}

/// Shows what a call answers, or its refusal.
pub(crate) fn show<T: fmt::Display + Drop>(
    rt: &impl Print,
    answer: Result<T, Fault>,
) -> io::Result<()> {
    match answer {
        Ok(value) => println!(rt; "{value}"),
        Err(Fault { cause, place }) => println!(rt;
            "? {} {} {}",
            place.index,
            place.end_number(),
            u32::from(cause)
        ),
    }
}

/// Shows that a call that answers nothing is done, or its refusal.
pub(crate) fn show_done(rt: &impl Print, answer: Result<(), Fault>) -> io::Result<()> {
    show(rt, answer.map(|()| "ok"))
}
