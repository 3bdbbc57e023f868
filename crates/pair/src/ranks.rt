// What the order within a moment means.
ghost use Rattle.pair.specs.HostCalls.{HostCallsAreARun};
ghost use Rattle.pair.specs.Ranks.{WritesCannotHideAnOverrun, MomentsAreSingleMoments, StoredExactlyAtStopSamples};

/// In the moment of a stop sample the receiver is served before the writes: ROVER is afterwards the RBRL that stood before, whatever is written
/// short of a reset.
pub fn writes_cannot_hide_an_overrun()
    ensures { WritesCannotHideAnOverrun }
{}

/// n moments without events, as one call that is accepted, are n calls of one such moment.
pub fn moments_are_single_moments()
    ensures { MomentsAreSingleMoments }
{}

/// What a receiver holds for the processor changes exactly at the clocks that a history notes as stop samples.
pub fn stored_exactly_at_stop_samples()
    ensures { StoredExactlyAtStopSamples }
{}

/// Whatever loads, takes, moments and n moments a host makes, with any numbers, they leave the bench that a run leaves.
pub fn host_calls_are_a_run()
    ensures { HostCallsAreARun }
{}
