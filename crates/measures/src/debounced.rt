// The debouncing layer: over any measure, it does not hand down an activation of a channel that is on already.
ghost use Rattle.std.specs.Prelude.{◌≡◌};
ghost use Rattle.measures.specs.Debouncing.{dropped, debounced, debounced_lawful, DebouncedFigures, meant, tally, Steps};
ghost use Rattle.measures.specs.Meanings.{MayStep};

use crate::channels::ChannelSet;
use crate::limits::FIGURES;
use crate::measure::Measure;
use crate::own::OwnRecord;
use controller_log::detector::{DetectorRow, Uses};
use controller_log::event::Event;

#[derive(Drop)]
pub struct Debounced<M: Measure> {
    // The channels whose latest record is an activation.
    on: ChannelSet,
    below: M,
}

impl<M: Measure> Debounced<M> {
    // The layer over a measure.
    pub fn over(below: M) -> Debounced<M>
        ensures { (result.below ≡ below) × (result.on.mask ≡ 0) }
    {
        Debounced {
            on: ChannelSet::empty(),
            below,
        }
    }

    // Whether a record is an activation of a channel that is on already.
    fn repeats(&self, own: OwnRecord) -> bool
        ensures { result ≡ dropped self.now.on.mask own }
    {
        own.event() == Some(Event::DetectorOn) && self.on.contains(own.parameter)
    }
}

impl<M: Measure> Measure for Debounced<M> {
    type Settings = M::Settings;

    const OPENING: Event = M::OPENING;

    ghost OPENING = { M.Measure.OPENING };

    const FURTHER: &'static [Event] = M::FURTHER;

    ghost settings = { λ s. M.Measure.settings s.below };

    ghost meaning = { λ s. debounced (M.Measure.meaning s) };

    ghost tally = { tally M.Measure };

    ghost words = { λ s. DebouncedFigures (M.Measure.meaning s) (M.Measure.words s) };

    ghost lawful = { λ s. debounced_lawful (M.Measure.meaning s) (M.Measure.lawful s) };

    ghost opens = { M.Measure.opens };

    fn new(chosen: M::Settings) -> Self {
        Debounced::over(M::new(chosen))
    }

    // Those of the measure below, asked of it: its constant has no value here.
    fn further_codes() -> &'static [Event] {
        M::further_codes()
    }

    fn uses(&self) -> Uses {
        self.below.uses()
    }

    fn reads_presence(&self) -> bool {
        self.below.reads_presence()
    }

    fn shift(&self, row: &DetectorRow) -> i32 {
        self.below.shift(row)
    }

    fn open(&mut self, moment: u32, occupied: ChannelSet) {
        self.on = occupied;
        self.below.open(moment, occupied);
    }

    // The trait's two clauses stand again, since an impl's own replace them.
    fn step(&mut self, own: OwnRecord)
        ensures same { M.Measure.settings self.new.below ≡ M.Measure.settings self.old.below }
        ensures after { MayStep (debounced (meant M.Measure self.old)) (tally M.Measure self.old) own → tally M.Measure self.new ≡ (debounced (meant M.Measure self.old)).stepped (tally M.Measure self.old) own }
        ensures handed { Steps M.Measure self.old own self.new }
    {
        if self.repeats(own) {
            return;
        }
        self.on = self.on.after(own);
        self.below.step(own);
    }

    fn close(&self, moment: u32) -> [u64; FIGURES] {
        self.below.close(moment)
    }
}
