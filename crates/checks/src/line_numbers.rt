// Registers, half-bit counts, parity and deadlines.
use crate::benches::numbers;
use timing::calls::{deadline, half_bit_count};
use timing::counts::{InternalCount, PhiCount};
use timing::ones::{odd_ones, parity_bit_of};
use timing::registers::{CharacterLength, Control, Format, Parity};

#[test]
fn half_bit_counts(rt: HostRuntime) {
    for (rate, expected) in [
        (1592, 4544),
        (0, 1024),
        (1024, 8192),
        (2047, 8184),
        (1, 1),
        (1023, 1023),
        (1025, 8),
    ] {
        assert_eq!(rt; half_bit_count(rate), Ok(InternalCount(expected)));
    }
    for rate in [2048, 65536, 4294967295] {
        assert_eq!(rt; half_bit_count(rate).map_err(numbers), Err((5, 0, 2)));
    }
}

#[test]
fn deadlines(rt: HostRuntime) {
    for (control, rate, delay, expected) in [
        (131, 1, 0, 63),
        (171, 1024, 64, 688200),
        (162, 417, 12, 23787),
        (59, 1024, 65535, 753671),
    ] {
        assert_eq!(rt; deadline(control, rate, delay), Ok(PhiCount(expected)));
    }
    for (control, rate, delay) in [
        (256, 1, 0),
        (131, 2048, 0),
        (131, 1, 65536),
        (4294967295, 4294967295, 4294967295),
    ] {
        assert_eq!(rt;
            deadline(control, rate, delay).map_err(numbers),
            Err((5, 0, 2))
        );
    }
}

#[test]
fn control_registers(rt: HostRuntime) {
    let rows = [
        (0, 5, 0, 3, 3),
        (162, 7, 1, 2, 3),
        (131, 8, 0, 2, 3),
        (171, 8, 1, 2, 4),
        (98, 7, 1, 4, 3),
        (73, 6, 0, 4, 4),
        (251, 8, 1, 2, 4),
    ];
    for (register, bits, parity, stop, q) in rows {
        let control = Control::from(register);
        assert_eq!(rt; control.format.length.bits(), bits);
        assert_eq!(rt; control.format.parity.bits(), parity);
        assert_eq!(rt; control.stop.half_bits(), stop);
        assert_eq!(rt; control.divider.q(), q);
    }
}

#[test]
fn ones_of_every_byte(rt: HostRuntime) {
    for byte in 0..=255u8 {
        assert_eq!(rt; odd_ones(byte), byte.count_ones() % 2 == 1);
    }
}

#[test]
fn parity_is_over_the_bits_sent(rt: HostRuntime) {
    let even = Format {
        length: CharacterLength::Seven,
        parity: Parity::Even,
    };
    let odd = Format {
        length: CharacterLength::Seven,
        parity: Parity::Odd,
    };
    assert_eq!(rt; parity_bit_of(even, 65), false);
    assert_eq!(rt; parity_bit_of(odd, 65), true);
    // 193 is 65 with bit 7 set, which is not sent
    assert_eq!(rt; parity_bit_of(even, 193), false);
    assert_eq!(rt; parity_bit_of(odd, 193), true);
}
