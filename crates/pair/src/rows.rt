// The definitions against worked examples.
ghost use Rattle.pair.specs.Rows.{Rows};
ghost use Rattle.pair.specs.Transmission.{FurtherRows};

/// A character loaded at A is stored at B after 63 moments and not before; a flip on a sample changes its bit, and one beside it none.
pub fn rows_hold()
    ensures { Rows }
{}

/// Whole calls and whole runs, computed: characters that arrive at the last moment of their deadline, both ways, over a delay, with flips on
/// samples and beside them, with an overrun and without CTS; what the law asks of flips; the edges of puts.
pub fn further_rows_hold()
    ensures { FurtherRows }
{}
