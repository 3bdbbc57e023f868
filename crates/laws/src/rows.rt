// The definitions against rows that were worked out by hand.
ghost use Rattle.laws.specs.Rows.{Rows};

/// Every row of the table of worked examples holds of the definitions.
pub fn rows_hold()
    ensures { Rows }
{}
