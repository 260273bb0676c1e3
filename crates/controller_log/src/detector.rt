// A row of a detector table: what one detector channel is for, and its 8 bytes in a file.
ghost use Rattle.std.specs.Prelude.{◌≡◌, true, IfSome, Some};
ghost use Rattle.controller_log.specs.Detectors.{AddsUp, uses_byte, share, uses_named, in_range, read_row, row_bytes, names};

use crate::limits::{ALL_USES, CHANNELS, MAX_LATENCY, MAX_TRAVEL, PHASES, RECORD_SIZE};
use std::fmt;

// The uses that a detector serves, or that a measure takes.
#[derive(Clone, Copy, PartialEq, Eq, Debug)]
pub struct Uses {
    pub arrivals: bool,
    pub presence: bool,
    pub red_light: bool,
}

impl Uses {
    pub const NONE: Uses = Uses {
        arrivals: false,
        presence: false,
        red_light: false,
    };

    pub const ARRIVALS: Uses = Uses {
        arrivals: true,
        ..Uses::NONE
    };

    pub const PRESENCE: Uses = Uses {
        presence: true,
        ..Uses::NONE
    };

    pub const RED_LIGHT: Uses = Uses {
        red_light: true,
        ..Uses::NONE
    };

    // Whether some use is in both.
    fn share(&self, other: Uses) -> bool
        ensures { result ≡ share self.now other }
    {
        self.arrivals && other.arrivals
            || self.presence && other.presence
            || self.red_light && other.red_light
    }
}

// A byte over 7, which is more than all uses add up to. A type of its own, as UnknownCode: an error says which byte it was.
#[derive(Clone, Copy, PartialEq, Eq, Debug)]
pub struct UnknownUses(pub u8);

// The uses that a byte adds up: 1 arrivals, 2 presence, 4 red-light.
impl TryFrom<u8> for Uses {
    type Error = UnknownUses;

    ghost try_from_gives = { AddsUp };

    fn try_from(byte: u8) -> Result<Uses, UnknownUses> {
        if byte > ALL_USES {
            return Err(UnknownUses(byte));
        }
        Ok(Uses {
            arrivals: byte % 2 == 1,
            presence: byte / 2 % 2 == 1,
            red_light: byte / 4 % 2 == 1,
        })
    }
}

impl From<Uses> for u8 {
    ghost from_gives = { λ uses byte. byte ≡ uses_byte uses };

    fn from(uses: Uses) -> u8 {
        u8::from(uses.arrivals) + 2 * u8::from(uses.presence) + 4 * u8::from(uses.red_light)
    }
}

impl fmt::Display for Uses {
    ghost output = { λ u. Some (uses_named u) };

    fn fmt<W: fmt::Write>(&self, f: &mut fmt::Formatter<W>) -> fmt::Result {
        f.write_str(match (self.arrivals, self.presence, self.red_light) {
            (false, false, false) => "no use",
            (true, false, false) => "arrivals",
            (false, true, false) => "presence",
            (true, true, false) => "arrivals and presence",
            (false, false, true) => "red-light",
            (true, false, true) => "arrivals and red-light",
            (false, true, true) => "presence and red-light",
            (true, true, true) => "arrivals, presence and red-light",
        })
    }
}

// What is asked of a detector: the phase that it serves, and one of some uses.
#[derive(Clone, Copy, PartialEq, Eq, Debug)]
pub struct Wanted {
    pub phase: u8,
    pub uses: Uses,
}

// The row of one channel; the table's place says which channel. Travel and latency are in tenths of a second.
// A channel and its row stay two values: a table keeps the row alone, at the channel's place.
#[derive(Clone, Copy, PartialEq, Eq, Debug)]
pub struct DetectorRow {
    pub phase: u8,
    pub uses: Uses,
    pub travel: u16,
    pub latency: u16,
}

impl DetectorRow {
    // The channel and the row in 8 bytes, or none where a value is out of range.
    // A method: no TryFrom can be written for a pair, which is no type of ours.
    pub fn read(bytes: &[u8]) -> Option<(u8, DetectorRow)>
        ensures value { result ≡ read_row bytes.now }
        ensures written_back { IfSome result (λ w. row_bytes w.0 w.1 ≡ bytes.now) }
    {
        let [channel, phase, uses, 0, t0, t1, l0, l1] = bytes else {
            return None;
        };
        let row = DetectorRow {
            phase: *phase,
            uses: Uses::try_from(*uses).ok()?,
            travel: u16::from_le_bytes([*t0, *t1]),
            latency: u16::from_le_bytes([*l0, *l1]),
        };
        row.in_range(*channel).then_some((*channel, row))
    }

    // Whether this row, at a channel, keeps the ranges of a table.
    pub fn in_range(&self, channel: u8) -> bool
        ensures { result ≡ in_range channel self.now }
    {
        (1..=CHANNELS).contains(&channel)
            && (1..=PHASES).contains(&self.phase)
            && self.travel <= MAX_TRAVEL
            && self.latency <= MAX_LATENCY
    }

    // The 8 bytes of this row at a channel; they read back as both, unless a value is out of range.
    // A method: a From has no place for the channel.
    pub fn to_bytes(&self, channel: u8) -> [u8; RECORD_SIZE]
        ensures value { result ≡ row_bytes channel self.now }
        ensures read_back { in_range channel self.now ≡ true → read_row result ≡ Some (channel, self.now) }
    {
        let [t0, t1] = self.travel.to_le_bytes();
        let [l0, l1] = self.latency.to_le_bytes();
        [channel, self.phase, u8::from(self.uses), 0, t0, t1, l0, l1]
    }

    // Whether the row names the phase and one of the uses.
    pub fn names(&self, wanted: Wanted) -> bool
        ensures { result ≡ names wanted self.now }
    {
        self.phase == wanted.phase && self.uses.share(wanted.uses)
    }
}
