// Codes, uses, shifts and sizes of the measures.
use controller_log::detector::{DetectorRow, Uses};
use controller_log::event::Event;
use measures::arrivals::Arrivals;
use measures::debounced::Debounced;
use measures::measure::{Measure, NoSettings};
use measures::red_light::RedLight;
use measures::severity::Severity;
use measures::split_failures::SplitFailures;
use std::mem::size_of;
use std::test::Fail;

fn uses(arrivals: bool, presence: bool, red_light: bool) -> Uses {
    Uses {
        arrivals,
        presence,
        red_light,
    }
}

fn row(travel: u16, latency: u16) -> DetectorRow {
    DetectorRow {
        phase: 2,
        uses: uses(true, true, true),
        travel,
        latency,
    }
}

fn have_codes(events: &[Event], codes: &[u8]) -> bool {
    events
        .iter()
        .map(|event| u8::from(*event))
        .eq(codes.iter().copied())
}

#[test]
fn cycle_codes(rt: HostRuntime) {
    assert_eq!(rt; u8::from(Arrivals::opening_code()), 9);
    assert!(rt; have_codes(Arrivals::further_codes(), &[1, 8]));
    assert_eq!(rt; u8::from(SplitFailures::opening_code()), 1);
    assert!(rt; have_codes(SplitFailures::further_codes(), &[8, 9]));
    assert_eq!(rt; u8::from(RedLight::opening_code()), 8);
    assert!(rt; have_codes(RedLight::further_codes(), &[9, 11, 1]));
}

#[test]
fn uses_presence_and_shift(rt: HostRuntime) -> Result<(), Fail> {
    let arrivals = Arrivals::new(NoSettings);
    assert_eq!(rt; arrivals.uses(), uses(true, false, false));
    assert!(rt; !arrivals.reads_presence());
    assert_eq!(rt; arrivals.shift(&row(80, 12)), 68);
    assert_eq!(rt; arrivals.shift(&row(0, 50)), -50);
    assert_eq!(rt; arrivals.shift(&row(200, 0)), 200);
    let splits = SplitFailures::new(NoSettings);
    assert_eq!(rt; splits.uses(), uses(false, true, false));
    assert!(rt; splits.reads_presence());
    assert_eq!(rt; splits.shift(&row(200, 0)), 0);
    let red_light = RedLight::new(Severity::new(50)?);
    assert_eq!(rt; red_light.uses(), uses(false, false, true));
    assert!(rt; !red_light.reads_presence());
    assert_eq!(rt; red_light.shift(&row(200, 12)), -12);
    Ok(())
}

#[test]
fn a_measure_fits_in_200_bytes(rt: HostRuntime) {
    assert!(rt; size_of::<Arrivals>() <= 200);
    assert!(rt; size_of::<SplitFailures>() <= 200);
    assert!(rt; size_of::<RedLight>() <= 200);
    assert!(rt; size_of::<Debounced<Arrivals>>() <= 200);
    assert!(rt; size_of::<Debounced<SplitFailures>>() <= 200);
    assert!(rt; size_of::<Debounced<RedLight>>() <= 200);
}
