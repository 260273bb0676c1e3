// Split failures: greens whose detectors stay occupied, and are occupied again right after red begins.
// A cycle runs from one begin of green to the next: green, yellow, red.
ghost use Rattle.std.specs.Prelude.{◌≡◌, refl, ◌^◌, ◌≤◌};
ghost use Rattle.controller_log.specs.declared.event.Event.TheVariants.{GreenBegins};
ghost use Rattle.measures.specs.Intervals.{shown};
ghost use Rattle.measures.specs.Limits.{longest_cycle};
ghost use Rattle.measures.specs.SplitFailures.{split_failures, split_lawful, SplitFigures, kept, tally, listed, first, failed, occupied_in, green_until, red_until, cause_number, cause_after};

use crate::channels::ChannelSet;
use crate::interval::Interval;
use crate::limits::{FAILED_GREEN_PERCENT, FAILED_RED, FIGURES, RED_WINDOW};
use crate::measure::{Measure, NoSettings};
use crate::own::OwnRecord;
use controller_log::detector::{DetectorRow, Uses};
use controller_log::event::Event;

#[derive(Drop)]
pub struct SplitFailures {
    shows: Interval,
    opened: u32,
    // Both are 0 before they begin. An Option would only be turned into 0 again where `close` comes early.
    yellow: u32,
    red: u32,
    // The moment of the latest record; the tenths up to it are counted.
    last: u32,
    occupied: ChannelSet,
    green_occupied: u64,
    red_occupied: u64,
    // Why green ended: the first gap-out, max-out or force-off in it, if one came.
    cause: Option<Event>,
}

// Whether a split failed, by the length of green, its occupied tenths and those of the red window.
fn split_failed(green: u64, green_occupied: u64, red_occupied: u64) -> bool
    ensures { green ≤ 2 ^ 33 → green_occupied ≤ longest_cycle → result ≡ failed green green_occupied red_occupied }
{
    green >= 1
        && green_occupied.saturating_mul(100) >= green.saturating_mul(FAILED_GREEN_PERCENT)
        && red_occupied >= FAILED_RED
}

impl SplitFailures {
    fn opened_at(moment: u32, occupied: ChannelSet) -> SplitFailures
        ensures { tally result ≡ listed (first moment occupied.mask) }
    {
        SplitFailures {
            shows: Interval::Green,
            opened: moment,
            yellow: 0,
            red: 0,
            last: moment,
            occupied,
            green_occupied: 0,
            red_occupied: 0,
            cause: None,
        }
    }

    // The occupied tenths from the latest record up to an end, if the signal shows the interval.
    fn occupied_in(&self, interval: Interval, end: u64) -> u64
        ensures { result ≡ occupied_in (kept self.now) (shown interval) end }
    {
        if self.shows == interval && !self.occupied.is_empty() {
            end.saturating_sub(u64::from(self.last))
        } else {
            0
        }
    }

    // The occupied tenths of green up to a moment. That the sum is small is a premise here and below, and no invariant:
    // a step may come at any time, and only in a cycle do sums stay small.
    fn green_until(&self, moment: u32) -> u64
        ensures { self.now.green_occupied ≤ longest_cycle → result ≡ green_until (kept self.now) moment }
    {
        self.green_occupied
            .saturating_add(self.occupied_in(Interval::Green, u64::from(moment)))
    }

    // The occupied tenths of the red window up to a moment.
    fn red_until(&self, moment: u32) -> u64
        ensures { self.now.red_occupied ≤ longest_cycle → result ≡ red_until (kept self.now) moment }
    {
        let end = (u64::from(self.red) + u64::from(RED_WINDOW)).min(u64::from(moment));
        self.red_occupied
            .saturating_add(self.occupied_in(Interval::Red, end))
    }

    // The cause with one more record: the first one counts.
    // Only a green without one asks which event came: asked of every record, it made a step take twice as long.
    fn cause_after(&self, own: OwnRecord) -> Option<Event>
        ensures { cause_number result ≡ cause_after (kept self.now) own.code }
    {
        match (self.shows, self.cause) {
            (Interval::Green, None) => match own.event() {
                cause @ Some(Event::GapOut | Event::MaxOut | Event::ForceOff) => cause,
                _ => self.cause,
            },
            _ => self.cause,
        }
    }
}

impl Measure for SplitFailures {
    type Settings = NoSettings;

    const OPENING: Event = Event::GreenBegins;

    ghost OPENING = { GreenBegins };

    const FURTHER: &'static [Event] = &[Event::YellowBegins, Event::YellowEnds];

    ghost settings = { λ _. record {} };

    ghost meaning = { λ _. split_failures };

    ghost tally = { tally };

    ghost words = { λ _. SplitFigures };

    ghost lawful = { λ _. split_lawful };

    ghost opens = { λ _. refl };

    fn new(chosen: NoSettings) -> Self {
        SplitFailures::opened_at(0, ChannelSet::empty())
    }

    // By each measure itself, as the trait tells.
    fn further_codes() -> &'static [Event] {
        Self::FURTHER
    }

    fn uses(&self) -> Uses {
        Uses::PRESENCE
    }

    fn reads_presence(&self) -> bool {
        true
    }

    fn shift(&self, row: &DetectorRow) -> i32 {
        0
    }

    fn open(&mut self, moment: u32, occupied: ChannelSet) {
        *self = SplitFailures::opened_at(moment, occupied);
    }

    #[tactic(auto, using(crate::proofs::SplitKeep::room_to_step))]
    fn step(&mut self, own: OwnRecord) {
        self.green_occupied = self.green_until(own.adjusted);
        self.red_occupied = self.red_until(own.adjusted);
        self.cause = self.cause_after(own);
        self.occupied = self.occupied.after(own);
        self.last = own.adjusted;
        match own.event() {
            Some(Event::YellowBegins) => {
                self.shows = Interval::Yellow;
                self.yellow = own.adjusted;
            }
            Some(Event::YellowEnds) => {
                self.shows = Interval::Red;
                self.red = own.adjusted;
            }
            _ => {}
        }
    }

    fn close(&self, moment: u32) -> [u64; FIGURES] {
        let green = u64::from(self.yellow.saturating_sub(self.opened));
        let red_occupied = self.red_until(moment);
        [
            green,
            self.green_occupied,
            red_occupied,
            // The figure is 0 where nothing said why green ended.
            self.cause.map_or(0, |event| u64::from(u8::from(event))),
            u64::from(split_failed(green, self.green_occupied, red_occupied)),
            0,
            0,
            0,
        ]
    }
}
