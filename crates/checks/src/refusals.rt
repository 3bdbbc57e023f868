// Refusals as people read them.
use faults::{Cause, End, Fault};
use std::test::Fail;

#[test]
fn a_refusal_says_what_and_where(rt: HostRuntime) -> Result<(), Fail> {
    let plain = format!(in rt.alloc(); "{}", Fault::from(Cause::OutOfRange))?;
    assert_eq!(rt;
        plain.as_str(),
        "a number, a length or a list is outside its range (cause 5, event index 0, no end)"
    );
    let taken = format!(in rt.alloc(); "{}", Cause::NothingReceived.at(0, Some(End::B)))?;
    assert_eq!(rt;
        taken.as_str(),
        "no received character waits (cause 14, event index 0, end B)"
    );
    let event = format!(in rt.alloc(); "{}", Cause::RepeatedDsr.at(31, Some(End::A)))?;
    assert_eq!(rt;
        event.as_str(),
        "the moment sets DSR of one end twice (cause 7, event index 31, end A)"
    );
    Ok(())
}

#[test]
fn causes_count_from_one(rt: HostRuntime) {
    let causes = [
        Cause::LineTooLong,
        Cause::UnknownCommand,
        Cause::BadFields,
        Cause::NoSuchEnd,
        Cause::OutOfRange,
        Cause::TooManyEvents,
        Cause::RepeatedDsr,
        Cause::CableNotClear,
        Cause::NotOpen,
        Cause::ClockLimit,
        Cause::Recovering,
        Cause::BufferNotEnabled,
        Cause::BufferFull,
        Cause::NothingReceived,
    ];
    assert_eq!(rt; causes.len(), 14);
    for (expected, cause) in (1..).zip(causes) {
        assert_eq!(rt; u32::from(cause), expected);
    }
}
