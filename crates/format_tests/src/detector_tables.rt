// Detector tables: the ranges of a row, the length of a file, the order of refusals, and look-ups.
use crate::cases::{refused, row};
use controller_log::detector::{DetectorRow, Uses, Wanted};
use controller_log::table::DetectorTable;
use std::alloc::{AllocError, Global};
use std::process::Abort;
use std::test::Fail;

// Each table of one row meets the refusal beside it, if any.
fn answers(rt: &impl Abort, cases: &[([u8; 8], Option<u8>)]) {
    for (row, number) in cases {
        assert_eq!(rt; refused(DetectorTable::read(row)), *number);
    }
}

// The refusal of a table of rows one after another, if any, and the place that it tells.
fn at_row(heap: Global, rows: &[[u8; 8]]) -> Result<Option<(u8, Option<usize>)>, AllocError> {
    let mut bytes = Vec::new(heap);
    for row in rows {
        bytes.extend_from_slice(row)?;
    }
    let refusal = DetectorTable::read(&bytes).err();
    Ok(refusal.map(|refusal| (refusal.number(), refusal.row())))
}

#[test]
fn a_channel_is_1_to_64(rt: HostRuntime) {
    answers(
        &rt,
        &[
            (row(0, 2, 1, 0, 80, 12), Some(5)),
            (row(1, 2, 1, 0, 80, 12), None),
            (row(64, 2, 1, 0, 80, 12), None),
            (row(65, 2, 1, 0, 80, 12), Some(5)),
        ],
    );
}

#[test]
fn a_phase_is_1_to_16(rt: HostRuntime) {
    answers(
        &rt,
        &[
            (row(5, 0, 1, 0, 80, 12), Some(5)),
            (row(5, 1, 1, 0, 80, 12), None),
            (row(5, 16, 1, 0, 80, 12), None),
            (row(5, 17, 1, 0, 80, 12), Some(5)),
        ],
    );
}

#[test]
fn uses_add_up_to_7_and_a_zero_byte_follows(rt: HostRuntime) {
    answers(
        &rt,
        &[
            (row(5, 2, 0, 0, 80, 12), None),
            (row(5, 2, 7, 0, 80, 12), None),
            (row(5, 2, 8, 0, 80, 12), Some(5)),
            (row(5, 2, 1, 1, 80, 12), Some(5)),
        ],
    );
}

#[test]
fn travel_is_at_most_200_and_latency_50(rt: HostRuntime) {
    answers(
        &rt,
        &[
            (row(5, 2, 1, 0, 0, 0), None),
            (row(5, 2, 1, 0, 200, 50), None),
            (row(5, 2, 1, 0, 201, 50), Some(5)),
            (row(5, 2, 1, 0, 256, 50), Some(5)),
            (row(5, 2, 1, 0, 200, 51), Some(5)),
            (row(5, 2, 1, 0, 200, 256), Some(5)),
        ],
    );
}

#[test]
fn a_row_reads_back(rt: HostRuntime) -> Result<(), Fail> {
    let bytes = row(5, 2, 5, 0, 200, 50);
    let uses = Uses {
        red_light: true,
        ..Uses::ARRIVALS
    };
    let read = DetectorRow {
        phase: 2,
        uses,
        travel: 200,
        latency: 50,
    };
    let (channel, row) = DetectorRow::read(&bytes).ok_or("refused")?;
    assert_eq!(rt; channel, 5);
    assert_eq!(rt; row, read);
    assert_eq!(rt; read.to_bytes(5), bytes);
    assert!(rt; DetectorRow::read(&bytes[0..7]).is_none());
    Ok(())
}

#[test]
fn a_table_has_at_most_64_rows_of_8_bytes(rt: HostRuntime) -> Result<(), Fail> {
    let mut bytes = Vec::new(rt.alloc());
    assert_eq!(rt; refused(DetectorTable::read(&bytes)), None);
    for channel in 1..=64 {
        bytes.extend_from_slice(&row(channel, 2, 1, 0, 80, 12))?;
    }
    assert_eq!(rt; bytes.len(), 512);
    assert_eq!(rt; refused(DetectorTable::read(&bytes)), None);
    bytes.extend_from_slice(&row(1, 2, 1, 0, 80, 12))?;
    assert_eq!(rt; bytes.len(), 520);
    assert_eq!(rt; refused(DetectorTable::read(&bytes)), Some(4));
    let short = row(5, 2, 1, 0, 80, 12);
    assert_eq!(rt; refused(DetectorTable::read(&short[0..7])), Some(4));
    Ok(())
}

#[test]
fn rows_are_tested_one_after_another_the_ranges_first(rt: HostRuntime) -> Result<(), Fail> {
    let heap = rt.alloc();
    let good = row(5, 2, 1, 0, 80, 12);
    let other = row(6, 2, 1, 0, 80, 12);
    let bad = row(5, 0, 1, 0, 80, 12);
    assert_eq!(rt; at_row(heap, &[good, other])?, None);
    assert_eq!(rt; at_row(heap, &[bad, good])?, Some((5, Some(1))));
    assert_eq!(rt; at_row(heap, &[good, other, bad])?, Some((5, Some(3))));
    assert_eq!(rt; at_row(heap, &[good, other, good])?, Some((6, Some(3))));
    assert_eq!(rt; at_row(heap, &[good, good, bad])?, Some((6, Some(2))));
    assert_eq!(rt; at_row(heap, &[good, bad, good])?, Some((5, Some(2))));
    Ok(())
}

#[test]
fn a_channel_without_a_row_has_none(rt: HostRuntime) -> Result<(), Fail> {
    let table = DetectorTable::read(&row(64, 2, 1, 0, 80, 12))?;
    assert!(rt; table.lookup(64).is_some());
    assert!(rt; table.lookup(0).is_none());
    assert!(rt; table.lookup(1).is_none());
    assert!(rt; table.lookup(63).is_none());
    assert!(rt; table.lookup(65).is_none());
    assert!(rt; table.lookup(255).is_none());
    Ok(())
}

#[test]
fn the_lead_row_has_the_lowest_channel(rt: HostRuntime) -> Result<(), Fail> {
    let mut bytes = Vec::new(rt.alloc());
    bytes.extend_from_slice(&row(9, 2, 1, 0, 90, 0))?;
    bytes.extend_from_slice(&row(7, 2, 5, 0, 70, 0))?;
    bytes.extend_from_slice(&row(3, 2, 2, 0, 30, 0))?;
    bytes.extend_from_slice(&row(1, 4, 1, 0, 10, 0))?;
    let table = DetectorTable::read(&bytes)?;
    let wanted = |phase, uses| Wanted { phase, uses };
    let lead = table
        .lead_row(wanted(2, Uses::ARRIVALS))
        .ok_or("no lead row")?;
    assert_eq!(rt; lead.travel, 70);
    assert!(rt; table.lead_row(wanted(3, Uses::ARRIVALS)).is_none());
    assert!(rt; table.lead_row(wanted(2, Uses::NONE)).is_none());
    let named = table.rows_naming(wanted(2, Uses::ARRIVALS));
    assert!(rt; named.lookup(9).is_some() && named.lookup(7).is_some());
    assert!(rt; named.lookup(3).is_none() && named.lookup(1).is_none());
    Ok(())
}
