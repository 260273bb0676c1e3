// A detector table: a place for each of 64 channels, read from a file of 8-byte rows.
ghost use Rattle.std.specs.Prelude.{◌≡◌, ◌+◌, ◌%◌, ◌^◌, ◌<◌, true, map, length};
ghost use Rattle.controller_log.specs.Detectors.{within, read_row};
ghost use Rattle.controller_log.specs.Limits.{channels, record_size};
ghost use Rattle.controller_log.specs.LeadRows.{if_named, rows_naming, lead_row, Lowest};
ghost use Rattle.controller_log.specs.Pieces.{pieces};
ghost use Rattle.controller_log.specs.Refusals.{answer, answer_with};
ghost use Rattle.controller_log.specs.TableRules.{TableRules};
ghost use Rattle.controller_log.specs.Tables.{lookup, no_rows, with_row, enter, entered, read_table};

use crate::detector::{DetectorRow, Wanted};
use crate::limits::{MAX_TABLE_SIZE, RECORD_SIZE, TABLE_PLACES};
use crate::refusal::Refusal;

// One place for each channel, and no map: the memory is fixed, and a look-up takes constant time.
// No model: a contract sees the array, whose type tells that it has 64 places, and a model would hide that.
#[derive(Clone, Copy, PartialEq, Eq, Debug)]
pub struct DetectorTable {
    places: [Option<DetectorRow>; TABLE_PLACES],
}

impl DetectorTable {
    // The table without rows.
    fn empty() -> DetectorTable
        ensures { result ≡ no_rows }
    {
        DetectorTable {
            places: [None; TABLE_PLACES],
        }
    }

    // The row of a channel, if it has one.
    pub fn lookup(&self, channel: u8) -> Option<DetectorRow>
        ensures { result ≡ lookup self.now channel }
    {
        let place = usize::from(channel).checked_sub(1)?;
        self.places.get(place).copied().flatten()
    }

    // The channel is the row's place.
    fn put(&mut self, channel: u8, row: DetectorRow)
        requires { within 1 channels channel ≡ true }
        ensures { self.new ≡ with_row self.old channel row }
    {
        self.places[usize::from(channel) - 1] = Some(row);
    }

    // The rows that are wanted, each at its channel's place.
    pub fn rows_naming(&self, wanted: Wanted) -> DetectorTable
        ensures { result ≡ rows_naming wanted self.now }
    {
        let mut named = *self;
        keep_named(&mut named.places, wanted);
        named
    }

    // The row of the lowest channel among those that are wanted.
    pub fn lead_row(&self, wanted: Wanted) -> Option<DetectorRow>
        ensures value { result ≡ lead_row wanted self.now }
        ensures lowest { Lowest wanted self.now.places result }
    {
        self.places
            .iter()
            .find_map(|place| place.filter(|row| row.names(wanted)))
    }

    // The table in a file of 8-byte rows, or the first refusal that meets it.
    // A method: a TryFrom would say its promises as one, without their names.
    pub fn read(bytes: &[u8]) -> Result<DetectorTable, Refusal>
        ensures value { answer result ≡ read_table bytes.now }
        ensures rules { TableRules bytes.now (answer result) }
    {
        if bytes.len() % RECORD_SIZE != 0 || bytes.len() > MAX_TABLE_SIZE {
            return Err(Refusal::TableLength);
        }
        DetectorTable::enter_rows(bytes)
    }

    // The rows enter one after another; a refusal tells the place of its row, from 1.
    fn enter_rows(bytes: &[u8]) -> Result<DetectorTable, Refusal>
        requires { length bytes.now % record_size ≡ 0 }
        ensures { answer result ≡ entered 1 no_rows (pieces bytes.now) }
    {
        let mut table = DetectorTable::empty();
        for (i, row) in bytes.chunks_exact(RECORD_SIZE).enumerate() {
            table.enter(i, row)?;
        }
        Ok(table)
    }

    // The row that i rows stand before is put at its channel.
    fn enter(&mut self, i: usize, row: &[u8]) -> Result<(), Refusal>
        requires { i + 1 < 2 ^ 64 }
        ensures { answer_with result self.new ≡ enter (i + 1) self.old (read_row row.now) }
    {
        let (channel, row) = DetectorRow::read(row).ok_or(Refusal::RowOutOfRange(i + 1))?;
        if self.lookup(channel).is_some() {
            return Err(Refusal::ChannelRepeated(i + 1));
        }
        self.put(channel, row);
        Ok(())
    }
}

// In place, one after another: an array mapped by a closure takes about three times as long.
fn keep_named(places: &mut [Option<DetectorRow>], wanted: Wanted)
    ensures { places.new ≡ map (if_named wanted) places.old }
{
    for place in places.iter_mut() {
        clear_unnamed(place, wanted);
    }
}

// A row that is not wanted goes.
fn clear_unnamed(place: &mut Option<DetectorRow>, wanted: Wanted)
    ensures { place.new ≡ if_named wanted place.old }
{
    if place.is_some_and(|row| !row.names(wanted)) {
        *place = None;
    }
}
