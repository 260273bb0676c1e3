// Loops that chatter, with the debouncing layer and without.
use crate::cases::{channels, cycle, off, on, phase};
use controller_log::event::Event;
use measures::arrivals::Arrivals;
use measures::channels::ChannelSet;
use measures::cycle::figures_of_cycle;
use measures::debounced::Debounced;
use measures::measure::{Measure, NoSettings};
use measures::own::OwnRecord;

fn chatter() -> [OwnRecord; 9] {
    [
        on(1010, 5),
        on(1012, 5),
        on(1013, 6),
        phase(1100, Event::GreenBegins),
        on(1110, 5),
        off(1120, 5),
        on(1130, 5),
        on(1131, 5),
        phase(1300, Event::YellowBegins),
    ]
}

fn debounced(occupied: &[u8]) -> [u64; 8] {
    let layer = Debounced::over(Arrivals::new(NoSettings));
    cycle(layer, 1000, occupied, &chatter(), 1340)
}

#[test]
fn without_the_layer_every_activation_counts(rt: HostRuntime) {
    assert_eq!(rt;
        cycle(Arrivals::new(NoSettings), 1000, &[], &chatter(), 1340),
        [100, 200, 40, 3, 3, 0, 265, 0]
    );
}

#[test]
fn with_the_layer_an_activation_counts_again_after_an_off(rt: HostRuntime) {
    assert_eq!(rt; debounced(&[]), [100, 200, 40, 2, 1, 0, 177, 0]);
}

#[test]
fn a_channel_of_the_opening_set_is_on_from_there(rt: HostRuntime) {
    assert_eq!(rt; debounced(&[5]), [100, 200, 40, 1, 1, 0, 87, 0]);
}

#[test]
fn the_layer_goes_over_itself(rt: HostRuntime) {
    let twice = Debounced::over(Debounced::over(Arrivals::new(NoSettings)));
    assert_eq!(rt; cycle(twice, 1000, &[], &chatter(), 1340), debounced(&[]));
}

#[test]
fn an_opening_takes_the_set_handed_in(rt: HostRuntime) {
    let mut layer = Debounced::over(Arrivals::new(NoSettings));
    let first = figures_of_cycle(&mut layer, 1000, channels(&[5, 6]), &chatter(), 1340);
    assert_eq!(rt; first, [100, 200, 40, 0, 1, 0, 0, 0]);
    let second = figures_of_cycle(&mut layer, 1000, ChannelSet::empty(), &chatter(), 1340);
    assert_eq!(rt; second, debounced(&[]));
}
