// The limits of the formats, each named once for the code; specs/Limits.antt names them for the contracts.
// Times are in tenths of a second.

// The latest moment, counted from 1 January 2020, 00:00.
pub const MAX_MOMENT: u32 = 4_000_000_000;

// Bytes of a log record, and of a row of a detector table.
pub const RECORD_SIZE: usize = 8;

// Detector channels and signal phases count from 1 up to these.
pub const CHANNELS: u8 = 64;

pub const PHASES: u8 = 16;

// All uses of a detector added: arrivals 1, presence 2, red-light 4.
pub const ALL_USES: u8 = 7;

// The longest travel from a loop to the stop line, and the longest detector latency.
pub const MAX_TRAVEL: u16 = 200;

pub const MAX_LATENCY: u16 = 50;

// A detector table has one place a channel, so its file is at most this long.
pub const TABLE_PLACES: usize = CHANNELS as usize;

pub const MAX_TABLE_SIZE: usize = TABLE_PLACES * RECORD_SIZE;
