// Split failures: the occupied tenths of green and of the red window, the cause, and the failure.
use crate::cases::{cycle, off, on, phase};
use controller_log::event::Event;
use measures::measure::{Measure, NoSettings};
use measures::own::OwnRecord;
use measures::split_failures::SplitFailures;

// The parts of a cycle are as figures_of_cycle takes them.
fn splits(opened: u32, occupied: &[u8], between: &[OwnRecord], closed: u32) -> [u64; 8] {
    cycle(
        SplitFailures::new(NoSettings),
        opened,
        occupied,
        between,
        closed,
    )
}

#[test]
fn a_failed_split(rt: HostRuntime) {
    let between = [
        off(700, 9),
        on(720, 9),
        phase(900, Event::ForceOff),
        phase(900, Event::YellowBegins),
        phase(940, Event::YellowEnds),
        off(985, 9),
    ];
    assert_eq!(rt;
        splits(500, &[9], &between, 1500),
        [400, 380, 45, 6, 1, 0, 0, 0]
    );
}

// A green of 400 tenths, occupied for some of them, and then the red window for some.
fn occupied_for(green: u32, red: u32) -> [u64; 8] {
    let between = [
        off(1000u32.saturating_add(green), 9),
        phase(1400, Event::YellowBegins),
        phase(1440, Event::YellowEnds),
        on(1440, 9),
        off(1440u32.saturating_add(red), 9),
    ];
    splits(1000, &[9], &between, 2000)
}

#[test]
fn a_split_fails_from_80_percent_of_green_and_40_tenths_of_red(rt: HostRuntime) {
    assert_eq!(rt; occupied_for(319, 40), [400, 319, 40, 0, 0, 0, 0, 0]);
    assert_eq!(rt; occupied_for(320, 40), [400, 320, 40, 0, 1, 0, 0, 0]);
    assert_eq!(rt; occupied_for(320, 39), [400, 320, 39, 0, 0, 0, 0, 0]);
}

#[test]
fn the_red_window_ends_after_50_tenths_or_at_the_close(rt: HostRuntime) {
    assert_eq!(rt; occupied_for(0, 50), [400, 0, 50, 0, 0, 0, 0, 0]);
    assert_eq!(rt; occupied_for(0, 300), [400, 0, 50, 0, 0, 0, 0, 0]);
    let between = [
        phase(1400, Event::YellowBegins),
        phase(1440, Event::YellowEnds),
        on(1450, 9),
    ];
    assert_eq!(rt;
        splits(1000, &[], &between, 1470),
        [400, 0, 20, 0, 0, 0, 0, 0]
    );
    assert_eq!(rt;
        splits(1000, &[], &between, 1600),
        [400, 0, 40, 0, 0, 0, 0, 0]
    );
}

#[test]
fn a_tenth_counts_once_however_many_channels_are_occupied(rt: HostRuntime) {
    let between = [
        on(1100, 10),
        off(1150, 9),
        off(1200, 10),
        phase(1400, Event::YellowBegins),
        phase(1440, Event::YellowEnds),
    ];
    assert_eq!(rt;
        splits(1000, &[9], &between, 2000),
        [400, 200, 0, 0, 0, 0, 0, 0]
    );
}

#[test]
fn channels_occupied_at_the_opening_count_from_there(rt: HostRuntime) {
    let between = [
        phase(1400, Event::YellowBegins),
        phase(1440, Event::YellowEnds),
    ];
    assert_eq!(rt;
        splits(1000, &[], &between, 2000),
        [400, 0, 0, 0, 0, 0, 0, 0]
    );
    assert_eq!(rt;
        splits(1000, &[64], &between, 2000),
        [400, 400, 50, 0, 1, 0, 0, 0]
    );
}

#[test]
fn the_first_cause_before_yellow_counts(rt: HostRuntime) {
    let two = [
        phase(1390, Event::GapOut),
        phase(1400, Event::ForceOff),
        phase(1400, Event::YellowBegins),
        phase(1440, Event::YellowEnds),
    ];
    assert_eq!(rt; splits(1000, &[], &two, 2000), [400, 0, 0, 4, 0, 0, 0, 0]);
    let late = [
        phase(1400, Event::YellowBegins),
        phase(1400, Event::MaxOut),
        phase(1440, Event::YellowEnds),
    ];
    assert_eq!(rt; splits(1000, &[], &late, 2000), [400, 0, 0, 0, 0, 0, 0, 0]);
}

#[test]
fn a_green_of_no_length_is_no_failure(rt: HostRuntime) {
    let between = [
        phase(1000, Event::YellowBegins),
        phase(1040, Event::YellowEnds),
    ];
    assert_eq!(rt;
        splits(1000, &[9], &between, 2000),
        [0, 0, 50, 0, 0, 0, 0, 0]
    );
}
