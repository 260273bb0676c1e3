// What the tests share: own records, and cycles played on measures.
use controller_log::event::Event;
use measures::channels::ChannelSet;
use measures::cycle::figures_of_cycle;
use measures::measure::Measure;
use measures::own::OwnRecord;

fn record(adjusted: u32, event: Event, parameter: u8) -> OwnRecord {
    OwnRecord {
        code: u8::from(event),
        parameter,
        adjusted,
    }
}

pub(crate) fn on(adjusted: u32, channel: u8) -> OwnRecord {
    record(adjusted, Event::DetectorOn, channel)
}

pub(crate) fn off(adjusted: u32, channel: u8) -> OwnRecord {
    record(adjusted, Event::DetectorOff, channel)
}

// A record of phase 2.
pub(crate) fn phase(adjusted: u32, event: Event) -> OwnRecord {
    record(adjusted, event, 2)
}

pub(crate) fn channels(some: &[u8]) -> ChannelSet {
    some.iter()
        .fold(ChannelSet::empty(), |set, channel| set.with(*channel))
}

// The figures of one cycle, with these channels occupied at its opening; its parts are as figures_of_cycle takes them.
pub(crate) fn cycle<M: Measure + Drop>(
    mut measure: M,
    opened: u32,
    occupied: &[u8],
    between: &[OwnRecord],
    closed: u32,
) -> [u64; 8] {
    figures_of_cycle(&mut measure, opened, channels(occupied), between, closed)
}
