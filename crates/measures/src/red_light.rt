// Entries on yellow, red clearance, red and green, and how late on red they are.
// A cycle runs from one begin of yellow to the next: yellow, red clearance, red, green.
ghost use Rattle.std.specs.Prelude.{◌≡◌, refl, ◌+◌, nat_le};
ghost use Rattle.controller_log.specs.declared.event.Event.TheVariants.{YellowBegins};
ghost use Rattle.measures.specs.RedLight.{red_light, red_light_lawful, RedLightFigures, tally, listed, first};

use crate::channels::ChannelSet;
use crate::interval::Interval;
use crate::limits::FIGURES;
use crate::measure::Measure;
use crate::own::OwnRecord;
use crate::severity::Severity;
use controller_log::detector::{DetectorRow, Uses};
use controller_log::event::Event;

#[derive(Drop)]
pub struct RedLight {
    severity: Severity,
    shows: Interval,
    opened: u32,
    // 0 before it begins. An Option would only be turned into 0 again where `close` comes early.
    red: u32,
    on_yellow: u64,
    on_clearance: u64,
    on_red: u64,
    severe: u64,
    on_green: u64,
    // Over the entries on yellow, the sum of their times after the opening.
    yellow_times: u64,
    // Over the entries on red clearance and red, the sum of their times after red began.
    red_times: u64,
}

impl RedLight {
    fn opened_at(severity: Severity, moment: u32) -> RedLight
        ensures { (result.severity ≡ severity) × (tally result ≡ listed (first moment)) }
    {
        RedLight {
            severity,
            shows: Interval::Yellow,
            opened: moment,
            red: 0,
            on_yellow: 0,
            on_clearance: 0,
            on_red: 0,
            severe: 0,
            on_green: 0,
            yellow_times: 0,
            red_times: 0,
        }
    }

    // Whether an entry at this moment is severe.
    fn severe_at(&self, moment: u32) -> bool
        ensures { result ≡ nat_le (self.now.red + self.now.severity.tenths) moment }
    {
        u64::from(self.red) + u64::from(self.severity.tenths()) <= u64::from(moment)
    }
}

impl Measure for RedLight {
    type Settings = Severity;

    const OPENING: Event = Event::YellowBegins;

    ghost OPENING = { YellowBegins };

    const FURTHER: &'static [Event] = &[
        Event::YellowEnds,
        Event::RedClearanceEnds,
        Event::GreenBegins,
    ];

    ghost settings = { λ s. s.severity };

    ghost meaning = { λ s. red_light s.tenths };

    ghost tally = { tally };

    ghost words = { λ s. RedLightFigures s.tenths };

    ghost lawful = { λ s. red_light_lawful s.tenths };

    ghost opens = { λ _. refl };

    fn new(chosen: Severity) -> Self {
        RedLight::opened_at(chosen, 0)
    }

    // By each measure itself, as the trait tells.
    fn further_codes() -> &'static [Event] {
        Self::FURTHER
    }

    fn uses(&self) -> Uses {
        Uses::RED_LIGHT
    }

    fn reads_presence(&self) -> bool {
        false
    }

    // A loop at the stop line: its latency, and no travel.
    fn shift(&self, row: &DetectorRow) -> i32 {
        -i32::from(row.latency)
    }

    fn open(&mut self, moment: u32, occupied: ChannelSet) {
        *self = RedLight::opened_at(self.severity, moment);
    }

    #[tactic(auto, using(crate::proofs::RedLightKeep::room_to_step))]
    fn step(&mut self, own: OwnRecord) {
        match (own.event(), self.shows) {
            (Some(Event::DetectorOn), Interval::Yellow) => {
                self.on_yellow = self.on_yellow.saturating_add(1);
                self.yellow_times = self
                    .yellow_times
                    .saturating_add(u64::from(own.adjusted.saturating_sub(self.opened)));
            }
            (Some(Event::DetectorOn), Interval::RedClearance | Interval::Red) => {
                if self.shows == Interval::Red {
                    self.on_red = self.on_red.saturating_add(1);
                } else {
                    self.on_clearance = self.on_clearance.saturating_add(1);
                }
                self.severe = self
                    .severe
                    .saturating_add(u64::from(self.severe_at(own.adjusted)));
                self.red_times = self
                    .red_times
                    .saturating_add(u64::from(own.adjusted.saturating_sub(self.red)));
            }
            (Some(Event::DetectorOn), Interval::Green) => {
                self.on_green = self.on_green.saturating_add(1);
            }
            (Some(Event::YellowEnds), _) => {
                self.shows = Interval::RedClearance;
                self.red = own.adjusted;
            }
            (Some(Event::RedClearanceEnds), _) => self.shows = Interval::Red,
            (Some(Event::GreenBegins), _) => self.shows = Interval::Green,
            _ => {}
        }
    }

    fn close(&self, moment: u32) -> [u64; FIGURES] {
        [
            self.on_yellow,
            self.on_clearance,
            self.on_red,
            self.severe,
            self.on_green,
            self.yellow_times,
            self.red_times,
            0,
        ]
    }
}
