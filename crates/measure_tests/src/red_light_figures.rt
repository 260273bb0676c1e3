// Red-light: entries by interval, and how late on red they are.
use crate::cases::{cycle, on, phase};
use controller_log::event::Event;
use controller_log::refusal::Refusal;
use measures::measure::Measure;
use measures::red_light::RedLight;
use measures::severity::Severity;
use std::test::Fail;

// Yellow from 1000, red clearance from 1040, red from 1060, green from 1500.
fn entry(severity: u8, adjusted: u32) -> Result<[u64; 8], Refusal> {
    let entry = on(adjusted, 7);
    let red = phase(1040, Event::YellowEnds);
    let clear = phase(1060, Event::RedClearanceEnds);
    let green = phase(1500, Event::GreenBegins);
    let between = match adjusted {
        0..1040 => [entry, red, clear, green],
        1040..1060 => [red, entry, clear, green],
        1060..1500 => [red, clear, entry, green],
        _ => [red, clear, green, entry],
    };
    let measure = RedLight::new(Severity::new(severity)?);
    Ok(cycle(measure, 1000, &[], &between, 2000))
}

#[test]
fn an_entry_counts_in_the_interval_of_its_moment(rt: HostRuntime) -> Result<(), Fail> {
    assert_eq!(rt; entry(200, 1000)?, [1, 0, 0, 0, 0, 0, 0, 0]);
    assert_eq!(rt; entry(200, 1039)?, [1, 0, 0, 0, 0, 39, 0, 0]);
    assert_eq!(rt; entry(200, 1040)?, [0, 1, 0, 0, 0, 0, 0, 0]);
    assert_eq!(rt; entry(200, 1059)?, [0, 1, 0, 0, 0, 0, 19, 0]);
    assert_eq!(rt; entry(200, 1060)?, [0, 0, 1, 0, 0, 0, 20, 0]);
    assert_eq!(rt; entry(200, 1499)?, [0, 0, 1, 1, 0, 0, 459, 0]);
    assert_eq!(rt; entry(200, 1500)?, [0, 0, 0, 0, 1, 0, 0, 0]);
    Ok(())
}

#[test]
fn an_entry_is_severe_from_the_setting_on(rt: HostRuntime) -> Result<(), Fail> {
    assert_eq!(rt; entry(50, 1089)?, [0, 0, 1, 0, 0, 0, 49, 0]);
    assert_eq!(rt; entry(50, 1090)?, [0, 0, 1, 1, 0, 0, 50, 0]);
    assert_eq!(rt; entry(0, 1040)?, [0, 1, 0, 1, 0, 0, 0, 0]);
    Ok(())
}

#[test]
fn a_severity_is_at_most_200(rt: HostRuntime) -> Result<(), Fail> {
    assert_eq!(rt; Severity::new(200)?.tenths(), 200);
    assert_eq!(rt;
        Severity::new(201).map_err(|refusal| refusal.number()),
        Err(8)
    );
    Ok(())
}
