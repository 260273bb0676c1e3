// A set of detector channels.
ghost use Rattle.std.specs.Prelude.{◌≡◌, ℕ, true, false, not, ◌||◌, if◌then◌else◌, ◌==◌, nat_eq};
ghost use Rattle.measures.specs.Channels.{channel, bit, holds, entered, removed, some_channel};
ghost use Rattle.measures.specs.Records.{activation, of_channel, changed};

use crate::own::OwnRecord;
use controller_log::event::Event;
use controller_log::limits::CHANNELS;

// A bit for each channel, the lowest for channel 1, and no set of std: a measure keeps to fixed memory and takes no allocator.
// No model: a contract sees the bits, whose type tells that there are 64, and a model would hide that.
#[derive(Clone, Copy, PartialEq, Eq, Debug)]
pub struct ChannelSet {
    mask: u64,
}

// The bit of a channel; a number that is no channel has none.
fn bit(channel: u8) -> u64
    ensures { result ≡ bit channel }
{
    if (1..=CHANNELS).contains(&channel) {
        1 << (channel - 1)
    } else {
        0
    }
}

impl ChannelSet {
    #[tactic(auto, using(crate::proofs::Sets::holds_none))]
    pub fn empty() -> ChannelSet
        ensures value { result.mask ≡ 0 }
        ensures members { (d : ℕ) → holds result.mask d ≡ false }
    {
        ChannelSet { mask: 0 }
    }

    #[tactic(auto, using(crate::proofs::Sets::bit_tested))]
    pub fn contains(&self, channel: u8) -> bool
        ensures { result ≡ holds self.now.mask channel }
    {
        self.mask & bit(channel) != 0
    }

    #[tactic(auto, using(crate::proofs::Sets::empty_is_none))]
    pub fn is_empty(&self) -> bool
        ensures { result ≡ not (some_channel (holds self.now.mask)) }
    {
        self.mask == 0
    }

    // The set with a channel too; a number that is no channel leaves it as it is.
    #[tactic(auto, using(crate::proofs::Sets::bit_set, crate::proofs::Sets::holds_entered))]
    pub fn with(self, entering: u8) -> ChannelSet
        ensures value { result.mask ≡ entered self.mask entering }
        ensures members { (d : ℕ) → channel d ≡ true → holds result.mask d ≡ (entering == d || holds self.mask d) }
    {
        ChannelSet {
            mask: self.mask | bit(entering),
        }
    }

    // The set without a channel.
    #[tactic(auto, using(crate::proofs::Sets::bit_cleared, crate::proofs::Sets::holds_removed))]
    pub fn without(self, leaving: u8) -> ChannelSet
        ensures value { result.mask ≡ removed self.mask leaving }
        ensures members { (d : ℕ) → holds result.mask d ≡ (if nat_eq leaving d then false else holds self.mask d) }
    {
        ChannelSet {
            mask: self.mask & !bit(leaving),
        }
    }

    // The occupied channels, one record on: an activation enters its channel, and an off removes it.
    pub fn after(self, own: OwnRecord) -> ChannelSet
        ensures value { result.mask ≡ changed self.mask own }
        ensures members { (d : ℕ) → channel d ≡ true → holds result.mask d ≡ (if of_channel d own then activation own else holds self.mask d) }
    {
        match own.event() {
            Some(Event::DetectorOn) => self.with(own.parameter),
            Some(Event::DetectorOff) => self.without(own.parameter),
            _ => self,
        }
    }
}
