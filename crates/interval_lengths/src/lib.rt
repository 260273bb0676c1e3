// How long each interval of a phase lasts: the smallest measure of use, as an example of adding one.
// A cycle runs from one begin of green to the next: green, yellow, red clearance, red.
#![tactic(auto)]

ghost use Rattle.std.specs.Prelude.{◌≡◌, refl, [], ◌∷◌};
ghost use Rattle.controller_log.specs.declared.event.Event.TheVariants.{GreenBegins};
ghost use Rattle.interval_lengths.specs.IntervalLengths.{interval_lengths, lengths_lawful, Lengths, tally};

use controller_log::detector::{DetectorRow, Uses};
use controller_log::event::Event;
use measures::channels::ChannelSet;
use measures::limits::FIGURES;
use measures::measure::{Measure, NoSettings};
use measures::own::OwnRecord;

// The moments at which the intervals of the cycle begin.
#[derive(Drop)]
pub struct IntervalLengths {
    green: u32,
    // These are 0 before they begin. An Option would only be turned into 0 again where `close` comes early.
    yellow: u32,
    clearance: u32,
    red: u32,
}

impl IntervalLengths {
    fn opened_at(moment: u32) -> IntervalLengths
        ensures { tally result ≡ moment ∷ 0 ∷ 0 ∷ 0 ∷ [] }
    {
        IntervalLengths {
            green: moment,
            yellow: 0,
            clearance: 0,
            red: 0,
        }
    }
}

impl Measure for IntervalLengths {
    type Settings = NoSettings;

    const OPENING: Event = Event::GreenBegins;

    ghost OPENING = { GreenBegins };

    const FURTHER: &'static [Event] = &[
        Event::YellowBegins,
        Event::YellowEnds,
        Event::RedClearanceEnds,
    ];

    ghost settings = { λ _. record {} };

    ghost meaning = { λ _. interval_lengths };

    ghost tally = { tally };

    ghost words = { λ _. Lengths };

    ghost lawful = { λ _. lengths_lawful };

    ghost opens = { λ _. refl };

    fn new(chosen: NoSettings) -> Self {
        IntervalLengths::opened_at(0)
    }

    // By each measure itself, as the trait tells.
    fn further_codes() -> &'static [Event] {
        Self::FURTHER
    }

    fn uses(&self) -> Uses {
        Uses::NONE
    }

    fn reads_presence(&self) -> bool {
        false
    }

    fn shift(&self, row: &DetectorRow) -> i32 {
        0
    }

    fn open(&mut self, moment: u32, occupied: ChannelSet) {
        *self = IntervalLengths::opened_at(moment);
    }

    fn step(&mut self, own: OwnRecord) {
        match own.event() {
            Some(Event::YellowBegins) => self.yellow = own.adjusted,
            Some(Event::YellowEnds) => self.clearance = own.adjusted,
            Some(Event::RedClearanceEnds) => self.red = own.adjusted,
            _ => {}
        }
    }

    fn close(&self, moment: u32) -> [u64; FIGURES] {
        [
            u64::from(self.yellow.saturating_sub(self.green)),
            u64::from(self.clearance.saturating_sub(self.yellow)),
            u64::from(self.red.saturating_sub(self.clearance)),
            u64::from(moment.saturating_sub(self.red)),
            0,
            0,
            0,
            0,
        ]
    }
}

#[cfg(test)]
mod tests {
    use super::*;
    use measures::cycle::figures_of_cycle;

    // Of phase 2; said here too, so that the example needs no other crate's tests.
    fn phase(adjusted: u32, event: Event) -> OwnRecord {
        OwnRecord {
            code: u8::from(event),
            parameter: 2,
            adjusted,
        }
    }

    #[test]
    fn each_interval_has_its_length(rt: HostRuntime) {
        let between = [
            phase(1300, Event::YellowBegins),
            phase(1340, Event::YellowEnds),
            phase(1360, Event::RedClearanceEnds),
        ];
        let mut measure = IntervalLengths::new(NoSettings);
        assert_eq!(rt;
            figures_of_cycle(&mut measure, 1000, ChannelSet::empty(), &between, 2000),
            [300, 40, 20, 640, 0, 0, 0, 0]
        );
    }
}
