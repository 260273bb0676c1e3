// What every measure is to a watch: its cycle codes, what it takes from a detector table, and the calls of one cycle.
// A watch opens a measure, steps it through the own records of the cycle and closes it; docs/ADDING_A_MEASURE.md tells more.
ghost use Rattle.std.specs.Prelude.{◌≡◌, ℕ, List, map};
ghost use Rattle.controller_log.specs.Events.{code_of};
ghost use Rattle.controller_log.specs.declared.event.Event.{Event};
ghost use Rattle.measures.specs.Meanings.{Meaning, Calls, Whole, tallied, Lawful, MayStep, MayClose, Answers};

use crate::channels::ChannelSet;
use crate::limits::FIGURES;
use crate::own::OwnRecord;
use controller_log::detector::{DetectorRow, Uses};
use controller_log::event::Event;

// The settings of a measure that has none.
#[derive(Clone, Copy, PartialEq, Eq, Debug)]
pub struct NoSettings;

pub trait Measure: Sized {
    // What the user chooses; no call changes it.
    type Settings;

    // A cycle runs from one record with the opening event to the next.
    const OPENING: Event;

    // The same for proofs, as the language asks for a constant that clauses name; the check proves the two equal.
    ghost OPENING: { Event };

    // The events that come between, once each and in this order.
    const FURTHER: &'static [Event];

    ghost settings: { Self → Self.Settings };

    // All that the settings decide.
    ghost meaning: { Self.Settings → Meaning };

    // What the measure keeps of a cycle.
    ghost tally: { Self → List ℕ };

    // What is answered for the calls of a whole cycle, in words.
    ghost words: { Self.Settings → Calls → ℕ → List ℕ → Type 0 };

    // The codes and shifts lie in their ranges.
    ghost lawful: { (s : Self.Settings) → Lawful (meaning s) };

    // The opening is the one that the settings mean.
    ghost opens: { (s : Self.Settings) → code_of OPENING ≡ (meaning s).opening };

    fn new(chosen: Self::Settings) -> Self
        ensures { settings result ≡ chosen };

    fn opening_code() -> Event
        ensures { (s : Self.Settings) → code_of result ≡ (meaning s).opening }
    {
        Self::OPENING
    }

    // Each measure answers its own, and no body stands here: in a proof for any measure a constant that is a reference has no value.
    fn further_codes() -> &'static [Event]
        ensures { (s : Self.Settings) → map code_of result.now ≡ (meaning s).further };

    // The detector uses that it takes.
    fn uses(&self) -> Uses
        ensures { result ≡ (meaning (settings self.now)).uses };

    // Whether it wants to know which channels are occupied at an opening.
    fn reads_presence(&self) -> bool
        ensures { result ≡ (meaning (settings self.now)).presence };

    // What is added to the moment of a detector record, where this row leads.
    fn shift(&self, row: &DetectorRow) -> i32
        ensures { result ≡ (meaning (settings self.now)).shift row.now };

    // That the settings stay is told by each call that could change them: no invariant speaks of before and after.
    fn open(&mut self, moment: u32, occupied: ChannelSet)
        ensures same { settings self.new ≡ settings self.old }
        ensures after { tally self.new ≡ (meaning (settings self.old)).opened moment occupied.mask };

    fn step(&mut self, own: OwnRecord)
        ensures same { settings self.new ≡ settings self.old }
        ensures after { MayStep (meaning (settings self.old)) (tally self.old) own → tally self.new ≡ (meaning (settings self.old)).stepped (tally self.old) own };

    fn close(&self, moment: u32) -> [u64; FIGURES]
        ensures figures { MayClose (meaning (settings self.now)) (tally self.now) moment → Answers (meaning (settings self.now)) (tally self.now) moment result }
        ensures whole_cycle { (c : Calls) → Whole (meaning (settings self.now)) c moment → tally self.now ≡ tallied (meaning (settings self.now)) c → words (settings self.now) c moment result };
}
