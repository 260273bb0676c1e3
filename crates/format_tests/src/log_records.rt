// Records: their length, their padding, their moment, and the way back to bytes.
use crate::cases::refused;
use controller_log::event::Event;
use controller_log::record::Record;

fn at_moment(moment: u32) -> [u8; 8] {
    let [m0, m1, m2, m3] = moment.to_le_bytes();
    [m0, m1, m2, m3, 82, 5, 0, 0]
}

#[test]
fn a_record_has_8_bytes(rt: HostRuntime) {
    let bytes = [1, 2, 3, 4, 82, 5, 0, 0, 0];
    for (size, number) in [(0, Some(1)), (7, Some(1)), (8, None), (9, Some(1))] {
        assert_eq!(rt; refused(Record::read(&bytes[0..size])), number);
    }
}

#[test]
fn the_fields_lie_in_order_the_moment_lowest_byte_first(rt: HostRuntime) {
    let bytes = [1, 2, 3, 4, 82, 5, 0, 0];
    let read = Record {
        moment: 0x0403_0201,
        code: 82,
        parameter: 5,
    };
    assert_eq!(rt; Record::read(&bytes).ok(), Some(read));
    assert_eq!(rt; read.to_bytes(), bytes);
}

#[test]
fn the_last_two_bytes_are_zero(rt: HostRuntime) {
    for (z0, z1, number) in [
        (0, 0, None),
        (1, 0, Some(2)),
        (0, 1, Some(2)),
        (255, 255, Some(2)),
    ] {
        assert_eq!(rt; refused(Record::read(&[1, 2, 3, 4, 82, 5, z0, z1])), number);
    }
}

#[test]
fn a_moment_is_at_most_4_000_000_000(rt: HostRuntime) {
    for (moment, number) in [
        (0, None),
        (4_000_000_000, None),
        (4_000_000_001, Some(3)),
        (u32::MAX, Some(3)),
    ] {
        assert_eq!(rt; refused(Record::read(&at_moment(moment))), number);
    }
}

#[test]
fn refusals_come_in_number_order(rt: HostRuntime) {
    assert_eq!(rt;
        refused(Record::read(&[255, 255, 255, 255, 1, 2, 0, 1, 0])),
        Some(1)
    );
    assert_eq!(rt;
        refused(Record::read(&[255, 255, 255, 255, 1, 2, 0, 1])),
        Some(2)
    );
    assert_eq!(rt;
        refused(Record::read(&[255, 255, 255, 255, 1, 2, 0, 0])),
        Some(3)
    );
}

#[test]
fn events_have_their_codes_and_no_other(rt: HostRuntime) {
    for code in 0..=255 {
        let known = matches!(code, 1 | 4 | 5 | 6 | 8 | 9 | 11 | 81 | 82);
        assert_eq!(rt; Event::try_from(code).is_ok(), known);
    }
    assert_eq!(rt; Event::try_from(1u8), Ok(Event::GreenBegins));
    assert_eq!(rt; Event::try_from(82u8), Ok(Event::DetectorOn));
}
