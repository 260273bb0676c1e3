// A whole cycle played on a measure.
ghost use Rattle.std.specs.Prelude.{◌≡◌};
ghost use Rattle.measures.specs.Cycles.{meaning_of};
ghost use Rattle.measures.specs.Meanings.{Whole, calls, tallied};

use crate::channels::ChannelSet;
use crate::limits::FIGURES;
use crate::measure::Measure;
use crate::own::OwnRecord;

// The figures that a measure answers for a cycle: opened, stepped through the own records between, and closed.
// What a cycle is made of stays four values: the measure's calls take them one by one, and a struct would be taken apart at once.
pub fn figures_of_cycle<M: Measure>(
    measure: &mut M,
    opened: u32,
    occupied: ChannelSet,
    between: &[OwnRecord],
    closed: u32,
) -> [u64; FIGURES]
    ensures same { M.Measure.settings measure.new ≡ M.Measure.settings measure.old }
    ensures figures { Whole (meaning_of M.Measure measure.old) (calls opened occupied.mask between.now) closed → result ≡ (meaning_of M.Measure measure.old).closed (tallied (meaning_of M.Measure measure.old) (calls opened occupied.mask between.now)) closed }
    ensures words { Whole (meaning_of M.Measure measure.old) (calls opened occupied.mask between.now) closed → M.Measure.words (M.Measure.settings measure.old) (calls opened occupied.mask between.now) closed result }
{
    measure.open(opened, occupied);
    for own in between {
        measure.step(*own);
    }
    measure.close(closed)
}
