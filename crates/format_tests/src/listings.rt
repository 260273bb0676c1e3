// The text of a table and a log, with and without a refusal.
use crate::cases::row;
use controller_log::refusal::Refusal;
use inspection::inspect;
use std::test::Fail;

#[test]
fn nothing_to_list(rt: HostRuntime) -> Result<(), Fail> {
    let text = inspect(rt.alloc(), &[], &[])?;
    assert!(rt; text.as_str() == "detector rows: 0, records: 0\n");
    Ok(())
}

#[test]
fn a_row_and_two_records(rt: HostRuntime) -> Result<(), Fail> {
    let table = row(5, 2, 3, 0, 80, 12);
    let log = [76, 4, 0, 0, 82, 5, 0, 0, 77, 4, 0, 0, 0, 255, 0, 0];
    let text = inspect(rt.alloc(), &table, &log)?;
    assert!(rt;
        text.as_str()
            == "detector 5: phase 2, arrivals and presence, travel 80, latency 12\n\
                record 1: moment 1100, code 82, parameter 5, detector on\n\
                record 2: moment 1101, code 0, parameter 255\n\
                detector rows: 1, records: 2\n"
    );
    Ok(())
}

#[test]
fn a_refused_table_is_at_record_0(rt: HostRuntime) -> Result<(), Fail> {
    let text = inspect(rt.alloc(), &row(5, 17, 3, 0, 80, 12), &[0; 8])?;
    assert!(rt;
        text.as_str()
            == "refused 5 at record 0\n\
                the detector table has a value out of range, row 1\n"
    );
    Ok(())
}

#[test]
fn a_refused_record_ends_the_listing(rt: HostRuntime) -> Result<(), Fail> {
    let log = [76, 4, 0, 0, 9, 2, 0, 0, 77, 4, 0, 0, 9, 2, 0];
    let text = inspect(rt.alloc(), &[], &log)?;
    assert!(rt;
        text.as_str()
            == "record 1: moment 1100, code 9, parameter 2, yellow ends\n\
                refused 1 at record 2\n\
                the record is not 8 bytes long\n"
    );
    Ok(())
}

#[test]
fn a_refusal_names_its_row(rt: HostRuntime) -> Result<(), Fail> {
    let repeated = Refusal::ChannelRepeated(64);
    let text = format!(in rt.alloc(); "{repeated}")?;
    assert!(rt; text.as_str() == "the detector table has a channel twice, row 64");
    Ok(())
}
