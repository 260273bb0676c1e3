// Arrivals: red from the opening, green from g, yellow from y.
use crate::cases::{cycle, off, on, phase};
use controller_log::event::Event;
use measures::arrivals::Arrivals;
use measures::measure::{Measure, NoSettings};

#[test]
fn lengths_counts_and_waits(rt: HostRuntime) {
    let between = [
        on(1768, 5),
        phase(1800, Event::GreenBegins),
        on(1808, 5),
        on(1888, 5),
        phase(2100, Event::YellowBegins),
        on(2108, 5),
    ];
    assert_eq!(rt;
        cycle(Arrivals::new(NoSettings), 1640, &[], &between, 2140),
        [160, 300, 40, 1, 2, 1, 32, 0]
    );
}

#[test]
fn an_activation_at_a_change_belongs_to_what_begins(rt: HostRuntime) {
    let between = [
        on(1000, 5),
        on(1099, 5),
        phase(1100, Event::GreenBegins),
        on(1100, 5),
        on(1299, 5),
        phase(1300, Event::YellowBegins),
        on(1300, 5),
        on(1339, 5),
    ];
    assert_eq!(rt;
        cycle(Arrivals::new(NoSettings), 1000, &[], &between, 1340),
        [100, 200, 40, 2, 2, 2, 101, 0]
    );
}

#[test]
fn other_records_count_nothing(rt: HostRuntime) {
    let between = [
        off(1010, 5),
        phase(1030, Event::RedClearanceEnds),
        phase(1100, Event::GreenBegins),
        off(1150, 5),
        phase(1300, Event::MaxOut),
        phase(1300, Event::YellowBegins),
        off(1310, 5),
    ];
    assert_eq!(rt;
        cycle(Arrivals::new(NoSettings), 1000, &[], &between, 1340),
        [100, 200, 40, 0, 0, 0, 0, 0]
    );
}
