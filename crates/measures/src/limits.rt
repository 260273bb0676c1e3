// The limits of the measures, each named once for the code; specs/Limits.antt names them for the contracts.
// Times are in tenths of a second.

// The figures that a measure answers for a cycle.
pub const FIGURES: usize = 8;

// The longest severity setting of the red-light measure.
pub const MAX_SEVERITY: u8 = 200;

// A split fails where its green was occupied for this many of a hundred tenths, and the red window for this many tenths.
pub const FAILED_GREEN_PERCENT: u64 = 80;

pub const FAILED_RED: u64 = 40;

// The red window: so long after yellow ends.
pub const RED_WINDOW: u32 = 50;
