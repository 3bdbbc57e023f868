// The moments of a run.
ghost use Rattle.std.specs.Prelude.{◌≤◌};

/// A moment of a run, by its number. No run has more than 2,000,000,000.
#[derive(Clone, Copy)]
pub(crate) struct Moment {
    pub(crate) number: u32,
    ghost in_run: { number ≤ 2000000000 },
}
