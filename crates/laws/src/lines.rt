// Laws of timer, transmitter, receiver and registers.
ghost use Rattle.laws.specs.Laws.{TimerElapsesEachInterval, TransmitterSendsItsCharacter, SpaceAfterFramingErrorStartsNothing, RateReachesBothRegisters, ResetKeepsRegisters};

/// The timer elapses once in each interval.
pub fn timer_elapses_each_interval()
    ensures { TimerElapsesEachInterval }
{}

/// A transmitter puts start, data, parity and stop on the line, each for its time.
pub fn transmitter_sends_its_character()
    ensures { TransmitterSendsItsCharacter }
{}

/// A line that stays low after a framing error starts nothing.
pub fn space_after_framing_error_starts_nothing()
    ensures { SpaceAfterFramingErrorStartsNothing }
{}

/// With both load flags of the rates set, a rate reaches both registers.
pub fn rate_reaches_both_registers()
    ensures { RateReachesBothRegisters }
{}

/// A reset keeps registers, buffers and the levels last seen.
pub fn reset_keeps_registers()
    ensures { ResetKeepsRegisters }
{}
