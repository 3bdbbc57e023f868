// Whole calls of a bench and of a script, with numbers that were worked out by hand.
//
// At control 131 and rate 1 an internal clock comes at every third moment, from moment 2 on, a half-bit is one internal clock, and a character takes
// 20 of them, 60 moments. With RTS set at both ends in moment 0 and a character loaded before moment 3, its start begins in moment 5 and its stop
// sample comes in moment 65; one that waits in the buffer then has its start in moment 65 and its stop sample in moment 125.
use acc::chip::Received;
use bench::Bench;
use cable::delaying::Delaying;
use cable::interface::Cable;
use cable::straight::Straight;
use faults::Fault;
use pair::event::Event;
use pair::opening::Opening;
use script::Script;
use std::test::Fail;

// The fastest rate, from clock 0.
const FASTEST: Opening = Opening {
    start: 0,
    control: 131,
    x: 1,
    r: 1,
    interval: 0,
};

/// The numbers of a refusal, as a host has them: cause, event index and end.
pub(crate) fn numbers(fault: Fault) -> (u32, u32, u32) {
    (
        u32::from(fault.cause),
        fault.place.index,
        fault.place.end_number(),
    )
}

// An event in a host's numbers, which may be out of range.
fn event(end: u32, kind: u32, address: u32, value: u32) -> Event {
    Event {
        end,
        kind,
        address,
        value,
        served: 0,
    }
}

// RBRL and ROVER of end B.
fn flags<C: Cable>(bench: &Bench<C>) -> Result<(u16, u16), Fault> {
    Ok((bench.get(1, 21, 1)?, bench.get(1, 11, 1)?))
}

// Opened at the fastest rate, with RTS set in moment 0, and 65 loaded at A before moment 3.
fn begin<C: Cable>(bench: &mut Bench<C>) -> Result<(), Fault> {
    bench.open(FASTEST)?;
    bench.moment(&mut [event(0, 1, 16, 1), event(1, 1, 16, 1)])?;
    bench.moments(2)?;
    bench.load(0, 65)
}

// 65 and 66 are sent back to back, and nothing is taken; up to before a moment.
fn two_characters(bench: &mut Bench<Straight>, moment: u32) -> Result<(), Fault> {
    begin(bench)?;
    bench.moments(3)?;
    bench.load(0, 66)?;
    bench.moments(moment.saturating_sub(6))
}

#[test]
fn a_write_on_the_clock_of_a_stop_sample_hides_no_overrun(rt: HostRuntime) -> Result<(), Fail> {
    let mut bench = Bench::new(Straight);
    two_characters(&mut bench, 125)?;
    assert_eq!(rt; bench.clock(), 125);
    assert_eq!(rt; flags(&bench), Ok((1, 0)));
    let mut events = [event(1, 1, 18, 0)];
    bench.moment(&mut events)?;
    assert_eq!(rt; events[0].served, 1);
    // the receiver was served first: ROVER shows the overrun, then RBRL fell
    assert_eq!(rt; flags(&bench), Ok((0, 1)));
    Ok(())
}

#[test]
fn a_write_one_clock_earlier_comes_in_time(rt: HostRuntime) -> Result<(), Fail> {
    let mut bench = Bench::new(Straight);
    two_characters(&mut bench, 124)?;
    bench.moment(&mut [event(1, 1, 18, 0)])?;
    assert_eq!(rt; flags(&bench), Ok((0, 0)));
    bench.moments(1)?;
    assert_eq!(rt; flags(&bench), Ok((1, 0)));
    Ok(())
}

#[test]
fn a_moment_takes_32_events_and_not_33(rt: HostRuntime) -> Result<(), Fail> {
    let mut bench = Bench::new(Straight);
    bench.open(FASTEST)?;
    bench.moment(&mut [event(1, 1, 19, 1); 32])?;
    assert_eq!(rt;
        bench.moment(&mut [event(1, 1, 19, 1); 33]).map_err(numbers),
        Err((6, 32, 1))
    );
    assert_eq!(rt; bench.clock(), 1);
    bench.moment(&mut [event(0, 1, 31, 1)])?;
    assert_eq!(rt;
        bench.moment(&mut [event(0, 1, 32, 1)]).map_err(numbers),
        Err((5, 0, 0))
    );
    Ok(())
}

#[test]
fn events_are_served_by_rank(rt: HostRuntime) -> Result<(), Fail> {
    let mut bench = Bench::new(Straight);
    bench.open(FASTEST)?;
    let mut events = [
        event(1, 1, 19, 1),
        event(0, 1, 19, 1),
        event(1, 0, 99, 1),
        event(0, 1, 20, 0),
        event(0, 0, 0, 0),
        event(1, 1, 21, 1),
    ];
    bench.moment(&mut events)?;
    assert_eq!(rt; events.map(|event| event.served), [5, 3, 1, 4, 2, 6]);
    Ok(())
}

#[test]
fn the_clock_ends_at_4000000000(rt: HostRuntime) -> Result<(), Fail> {
    let mut bench = Bench::new(Straight);
    assert_eq!(rt;
        bench
            .open(Opening {
                start: 4000000001,
                ..FASTEST
            })
            .map_err(numbers),
        Err((5, 0, 2))
    );
    assert_eq!(rt; bench.moments(0).map_err(numbers), Err((9, 0, 2)));
    bench.open(Opening {
        start: 3999999999,
        ..FASTEST
    })?;
    assert_eq!(rt; bench.moments(2).map_err(numbers), Err((10, 0, 2)));
    bench.moments(1)?;
    assert_eq!(rt; bench.clock(), 4000000000);
    bench.moments(0)?;
    assert_eq!(rt; bench.moment(&mut []).map_err(numbers), Err((10, 0, 2)));
    Ok(())
}

#[test]
fn a_reset_end_recovers_in_11_moments(rt: HostRuntime) -> Result<(), Fail> {
    let mut bench = Bench::new(Straight);
    bench.open(FASTEST)?;
    bench.put(0, 31, 1, 1)?;
    bench.moments(10)?;
    assert_eq!(rt; bench.load(0, 65).map_err(numbers), Err((11, 0, 0)));
    bench.load(1, 65)?;
    bench.moments(1)?;
    // recovered, and the load flags that the reset has set are in the way
    assert_eq!(rt; bench.load(0, 65).map_err(numbers), Err((12, 0, 0)));
    Ok(())
}

#[test]
fn a_delaying_cable_adds_its_delay(rt: HostRuntime) -> Result<(), Fail> {
    let mut cable = Delaying::new();
    cable.set_lengths(3, 1)?;
    let mut bench = Bench::new(cable);
    begin(&mut bench)?;
    // three pairs more on the way: the start is seen one internal clock later
    bench.moments(65)?;
    assert_eq!(rt; bench.take(1).map_err(numbers), Err((14, 0, 1)));
    bench.moments(1)?;
    assert!(rt;
        matches!(
            &bench.take(1),
            Ok(Received {
                character: 65,
                rover: false,
                ..
            })
        )
    );
    Ok(())
}

#[test]
fn a_bench_is_not_opened_over_a_waiting_space(rt: HostRuntime) -> Result<(), Fail> {
    let mut cable = Delaying::new();
    cable.set_lengths(64, 64)?;
    let mut bench = Bench::new(cable);
    begin(&mut bench)?;
    bench.moments(130)?;
    assert_eq!(rt; bench.open(FASTEST).map_err(numbers), Err((8, 0, 2)));
    assert_eq!(rt; bench.clock(), 133);
    Ok(())
}

#[test]
fn a_script_answers_into_a_buffer(rt: HostRuntime) {
    let mut script = Script::new();
    let mut short = [7u8; 63];
    assert_eq!(rt;
        script.answer_line(b"T 1", &mut short).map_err(numbers),
        Err((5, 0, 2))
    );
    let mut buffer = [7u8; 66];
    assert_eq!(rt; script.answer_line(b"T 1\n", &mut buffer), Ok(10));
    assert_eq!(rt; &buffer[..12], b"? 1 0 1 9\n\x07\x07".as_slice());
    assert_eq!(rt; script.answer_line(b"O 131 1 1 0", &mut buffer), Ok(3));
    assert_eq!(rt; &buffer[..12], b"ok\n 0 1 9\n\x07\x07".as_slice());
}
