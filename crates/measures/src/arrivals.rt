// Arrivals on red, green and yellow, and how long those on red wait for the green.
// A cycle runs from one end of yellow to the next: red, green, yellow.
ghost use Rattle.std.specs.Prelude.{◌≡◌, refl};
ghost use Rattle.controller_log.specs.declared.event.Event.TheVariants.{YellowEnds};
ghost use Rattle.measures.specs.Arrivals.{arrivals, arrivals_lawful, ArrivalFigures, tally, listed, first};

use crate::channels::ChannelSet;
use crate::interval::Interval;
use crate::limits::FIGURES;
use crate::measure::{Measure, NoSettings};
use crate::own::OwnRecord;
use controller_log::detector::{DetectorRow, Uses};
use controller_log::event::Event;

#[derive(Drop)]
pub struct Arrivals {
    shows: Interval,
    opened: u32,
    // Both are 0 before they begin. An Option would only be turned into 0 again where `close` comes early.
    green: u32,
    yellow: u32,
    on_red: u64,
    on_green: u64,
    on_yellow: u64,
    // Over the arrivals on red, the sum of their times after the opening.
    red_times: u64,
}

impl Arrivals {
    fn opened_at(moment: u32) -> Arrivals
        ensures { tally result ≡ listed (first moment) }
    {
        Arrivals {
            shows: Interval::Red,
            opened: moment,
            green: 0,
            yellow: 0,
            on_red: 0,
            on_green: 0,
            on_yellow: 0,
            red_times: 0,
        }
    }
}

impl Measure for Arrivals {
    type Settings = NoSettings;

    const OPENING: Event = Event::YellowEnds;

    ghost OPENING = { YellowEnds };

    const FURTHER: &'static [Event] = &[Event::GreenBegins, Event::YellowBegins];

    ghost settings = { λ _. record {} };

    ghost meaning = { λ _. arrivals };

    ghost tally = { tally };

    ghost words = { λ _. ArrivalFigures };

    ghost lawful = { λ _. arrivals_lawful };

    ghost opens = { λ _. refl };

    fn new(chosen: NoSettings) -> Self {
        Arrivals::opened_at(0)
    }

    // By each measure itself, as the trait tells.
    fn further_codes() -> &'static [Event] {
        Self::FURTHER
    }

    fn uses(&self) -> Uses {
        Uses::ARRIVALS
    }

    fn reads_presence(&self) -> bool {
        false
    }

    fn shift(&self, row: &DetectorRow) -> i32 {
        i32::from(row.travel) - i32::from(row.latency)
    }

    fn open(&mut self, moment: u32, occupied: ChannelSet) {
        *self = Arrivals::opened_at(moment);
    }

    #[tactic(auto, using(crate::proofs::ArrivalsKeep::room_to_step))]
    fn step(&mut self, own: OwnRecord) {
        match (own.event(), self.shows) {
            (Some(Event::DetectorOn), Interval::Red) => {
                self.on_red = self.on_red.saturating_add(1);
                self.red_times = self
                    .red_times
                    .saturating_add(u64::from(own.adjusted.saturating_sub(self.opened)));
            }
            (Some(Event::DetectorOn), Interval::Green) => {
                self.on_green = self.on_green.saturating_add(1);
            }
            (Some(Event::DetectorOn), Interval::Yellow) => {
                self.on_yellow = self.on_yellow.saturating_add(1);
            }
            (Some(Event::GreenBegins), _) => {
                self.shows = Interval::Green;
                self.green = own.adjusted;
            }
            (Some(Event::YellowBegins), _) => {
                self.shows = Interval::Yellow;
                self.yellow = own.adjusted;
            }
            _ => {}
        }
    }

    fn close(&self, moment: u32) -> [u64; FIGURES] {
        let red = u64::from(self.green.saturating_sub(self.opened));
        [
            red,
            u64::from(self.yellow.saturating_sub(self.green)),
            u64::from(moment.saturating_sub(self.yellow)),
            self.on_red,
            self.on_green,
            self.on_yellow,
            self.on_red
                .saturating_mul(red)
                .saturating_sub(self.red_times),
            0,
        ]
    }
}
