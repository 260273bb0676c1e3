// Why a call was refused: a case for each reason, with its number, its values and its words.
ghost use Rattle.std.specs.Prelude.{◌≡◌, [], Some, slice_index_or};
ghost use Rattle.controller_log.specs.Refusals.{told, row_told, words, wording};

use std::fmt;

#[derive(Clone, Copy, PartialEq, Eq, Debug)]
pub enum Refusal {
    // A log record is not 8 bytes long.
    RecordLength,
    // The last two bytes of a record are not zero.
    RecordPadding,
    // A moment is over the limit.
    MomentTooLate,
    // A detector table is no whole number of rows, or has too many.
    TableLength,
    // A row, by its place from 1, breaks a range or its zero byte.
    RowOutOfRange(usize),
    // A row, by its place from 1, has the channel of an earlier one.
    ChannelRepeated(usize),
    // No such phase, measure or steady mark.
    NoSuchWatch,
    // The severity setting is over its limit.
    SeverityTooLong,
    // A moment is before the last accepted one.
    OutOfOrder,
    // As many records are held as can be, and none of them is due.
    HoldFull,
    // More cycles may close than the row list has places.
    RowListTooShort,
}

impl Refusal {
    // The number by which every document and listing calls this refusal.
    // A method and no From, since it leaves out the row that some tell.
    pub fn number(&self) -> u8
        ensures { result ≡ (told self.now).number }
    {
        match self {
            Refusal::RecordLength => 1,
            Refusal::RecordPadding => 2,
            Refusal::MomentTooLate => 3,
            Refusal::TableLength => 4,
            Refusal::RowOutOfRange(_) => 5,
            Refusal::ChannelRepeated(_) => 6,
            Refusal::NoSuchWatch => 7,
            Refusal::SeverityTooLong => 8,
            Refusal::OutOfOrder => 9,
            Refusal::HoldFull => 10,
            Refusal::RowListTooShort => 11,
        }
    }

    // The place of the table row that was refused, from 1.
    pub fn row(&self) -> Option<usize>
        ensures { row_told result ≡ (told self.now).values }
    {
        match self {
            Refusal::RowOutOfRange(row) | Refusal::ChannelRepeated(row) => Some(*row),
            _ => None,
        }
    }

    // Apart from Display, which adds the row that some tell.
    #[tactic(auto, unfolding(crate::specs::Refusals::words))]
    fn words(&self) -> &'static str
        ensures { result.now ≡ slice_index_or words (told self.now).number [] }
    {
        match self {
            Refusal::RecordLength => "the record is not 8 bytes long",
            Refusal::RecordPadding => "the last two bytes of the record are not zero",
            Refusal::MomentTooLate => "the moment is later than 4000000000",
            Refusal::TableLength => {
                "the detector table's length is no multiple of 8 bytes, or over 512"
            }
            Refusal::RowOutOfRange(_) => "the detector table has a value out of range",
            Refusal::ChannelRepeated(_) => "the detector table has a channel twice",
            Refusal::NoSuchWatch => {
                "the phase is not 1 to 16, the measure not 1 to 3 or the steady mark not 0 or 1"
            }
            Refusal::SeverityTooLong => "the severity setting is over 200",
            Refusal::OutOfOrder => "the moment is before the last accepted one",
            Refusal::HoldFull => "256 records are held and none of them is due",
            Refusal::RowListTooShort => "more cycles may close than the row list has places",
        }
    }
}

impl fmt::Display for Refusal {
    ghost output = { λ e. Some (wording (told e)) };

    #[tactic(auto, unfolding(crate::specs::Refusals::wording))]
    fn fmt<W: fmt::Write>(&self, f: &mut fmt::Formatter<W>) -> fmt::Result {
        let words = self.words();
        match self.row() {
            Some(row) => write!(f, "{words}, row {row}"),
            None => f.write_str(words),
        }
    }
}
