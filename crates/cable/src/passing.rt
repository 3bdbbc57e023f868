// The law of what a cable hands out.
ghost use Rattle.cable.specs.Passing.{HandsOutWhatEntered};

/// What entered is handed out in order, turned over exactly where an odd number of flips had the position of that step.
pub fn hands_out_what_entered()
    ensures { HandsOutWhatEntered }
{}
