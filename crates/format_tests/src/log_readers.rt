// A log read record by record: how many pieces, their numbers and their lengths.
use controller_log::reader::LogReader;
use std::test::Fail;

// How many records a log of some bytes begins, and the number and length of its last, if any.
fn read_to_end(log: &[u8]) -> (usize, Option<(usize, usize)>) {
    let last = LogReader::new(log).last();
    (
        LogReader::new(log).count(),
        last.map(|(number, bytes)| (number, bytes.len())),
    )
}

// The number of the record after the next. This and the function below are proved for any reader: it leaves room to count on.
fn after_the_next(reader: &mut LogReader<'_>) -> usize {
    let Some((number, _)) = reader.next() else {
        return 0;
    };
    number + 1
}

// A line for each record that is left, and one for their sum.
fn lines_with_sum(reader: LogReader<'_>) -> usize {
    reader.count() + 1
}

#[test]
fn a_reader_leaves_room_to_count_on(rt: HostRuntime) {
    let log = [0u8; 25];
    let mut reader = LogReader::new(&log);
    assert_eq!(rt; after_the_next(&mut reader), 2);
    assert_eq!(rt; lines_with_sum(reader), 4);
}

#[test]
fn a_short_last_piece_is_yielded_too(rt: HostRuntime) {
    let log = [0u8; 25];
    assert_eq!(rt; read_to_end(&log[0..0]), (0, None));
    assert_eq!(rt; read_to_end(&log[0..7]), (1, Some((1, 7))));
    assert_eq!(rt; read_to_end(&log[0..8]), (1, Some((1, 8))));
    assert_eq!(rt; read_to_end(&log[0..9]), (2, Some((2, 1))));
    assert_eq!(rt; read_to_end(&log[0..24]), (3, Some((3, 8))));
    assert_eq!(rt; read_to_end(&log), (4, Some((4, 1))));
}

#[test]
fn each_piece_stands_at_its_place(rt: HostRuntime) -> Result<(), Fail> {
    let log = [1, 1, 1, 1, 1, 1, 1, 1, 2, 2, 2, 2, 2, 2, 2, 2, 3];
    let mut reader = LogReader::new(&log);
    let (first, bytes) = reader.next().ok_or("no first")?;
    assert_eq!(rt; first, 1);
    assert!(rt; bytes == &log[0..8]);
    let (second, bytes) = reader.next().ok_or("no second")?;
    assert_eq!(rt; second, 2);
    assert!(rt; bytes == &log[8..16]);
    let (third, bytes) = reader.next().ok_or("no third")?;
    assert_eq!(rt; third, 3);
    assert!(rt; bytes == &log[16..17]);
    assert!(rt; reader.next().is_none());
    assert!(rt; reader.next().is_none());
    Ok(())
}
