// What may be asked of a chip and of its parts whatever their numbers are, those included that no chip gets to.
use acc::chip::{Acc, Pins, Registers};
use faults::End;
use moments::chips::Chips;
use moments::ranks::Rank;
use pair::event::Event;
use sections::receiver::{Receiver, Receiving};
use sections::timer::Timer;
use sections::transmitter::{Sending, Transmitter};
use timing::counts::{InternalCount, PhiCount};

// Longer than any countdown of a chip.
const TOO_LONG: InternalCount = InternalCount(60000);

// A chip with a divider count and a prescaler that no opened one gets to.
fn unsound_chip() -> Acc {
    Acc {
        divider: PhiCount(9),
        timer: Timer {
            prescaler: TOO_LONG,
            ..Timer::at(7)
        },
        ..Acc::opened(Registers::default())
    }
}

#[test]
fn a_reset_ends_any_countdown(rt: HostRuntime) {
    let mut receiver = Receiver {
        state: Receiving::Half { left: TOO_LONG },
        ..Receiver::idle()
    };
    assert!(rt; !receiver.rsbd() && !receiver.rfbd());
    receiver.reset();
    assert!(rt; matches!(receiver.state, Receiving::Idle));

    let mut transmitter = Transmitter {
        state: Sending::Stop { left: TOO_LONG },
        ..Transmitter::empty()
    };
    assert!(rt; !transmitter.xsre());
    transmitter.reset();
    assert!(rt; transmitter.xsre());

    let mut timer = Timer {
        prescaler: TOO_LONG,
        ..Timer::at(7)
    };
    timer.load(25);
    assert_eq!(rt; timer.prescaler.0, 0);
    assert_eq!(rt; timer.count, 25);
}

#[test]
fn a_chip_with_any_divider_count_can_be_read(rt: HostRuntime) {
    let chip = Acc {
        divider: PhiCount(9),
        ..Acc::opened(Registers::default())
    };
    assert!(rt; !chip.is_recovering() && !chip.interrupt() && !chip.flag());
    // XBRE and XSRE
    assert!(rt; chip.read(22) && chip.read(23));
    assert!(rt; chip.get(22, 2) == Ok(3));
    let pins = Pins {
        xout: true,
        rts: false,
        int: false,
    };
    assert!(rt; chip.pins() == pins);
}

#[test]
fn a_chip_with_any_numbers_can_be_written(rt: HostRuntime) {
    let mut chip = unsound_chip();
    chip.set_dsr(true);
    // RTS; then bit 0 of the transmit buffer, since no load flag is set
    chip.write(16, true);
    chip.write(0, true);
    assert!(rt; chip.lines.dsr_setting && chip.lines.rtson && chip.lines.rts);
    assert_eq!(rt; chip.transmitter.buffer, 1);
    assert_eq!(rt; chip.divider.0, 9);
    // a reset
    chip.write(31, false);
    assert!(rt; chip.divider.0 == 0 && chip.is_recovering() && !chip.lines.rts);
    assert_eq!(rt; chip.transmitter.buffer, 1);
}

#[test]
fn a_section_with_any_countdown_can_be_written_and_seen(rt: HostRuntime) {
    let mut transmitter = Transmitter {
        state: Sending::Stop { left: TOO_LONG },
        ..Transmitter::empty()
    };
    transmitter.write_bit(0, true);
    assert!(rt; transmitter.buffer == 1 && transmitter.xbre);
    transmitter.write_bit(7, true);
    assert!(rt; transmitter.buffer == 129 && !transmitter.xbre && !transmitter.xsre());

    let mut receiver = Receiver {
        state: Receiving::Half { left: TOO_LONG },
        rbrl: true,
        ..Receiver::idle()
    };
    receiver.release();
    assert!(rt; !receiver.rbrl);

    let mut timer = Timer {
        prescaler: TOO_LONG,
        timelp: true,
        timerr: true,
        ..Timer::at(7)
    };
    timer.acknowledge();
    assert!(rt; !timer.timelp && !timer.timerr);
    assert_eq!(rt; timer.prescaler.0, 60000);
}

#[test]
fn events_are_served_at_chips_with_any_numbers(rt: HostRuntime) {
    // RTS is set at A, the DSR input at B, and a break at B.
    let write = Event {
        end: 0,
        kind: 1,
        address: 16,
        value: 1,
        served: 9,
    };
    let setting = Event {
        end: 1,
        kind: 0,
        address: 0,
        ..write
    };
    let another = Event {
        end: 1,
        address: 17,
        ..write
    };
    let mut events = [write, setting, another];
    let mut chips = Chips {
        a: unsound_chip(),
        b: unsound_chip(),
    };
    let next = Rank::DsrSettings.serve(&mut chips, &mut events, 0);
    let next = Rank::WritesAt(End::A).serve(&mut chips, &mut events, next);
    let next = Rank::WritesAt(End::B).serve(&mut chips, &mut events, next);
    assert_eq!(rt; next, 3);
    assert!(rt; events.map(|event| event.served) == [1, 0, 2]);
    assert!(rt;
        chips.a.lines.rtson
            && chips.a.lines.rts
            && !chips.a.lines.dsr_setting
            && !chips.a.modes.brkon
    );
    assert!(rt; !chips.b.lines.rtson && chips.b.lines.dsr_setting && chips.b.modes.brkon);
    assert!(rt; chips.a.divider == PhiCount(9) && chips.b.timer.prescaler.0 == 60000);
}
