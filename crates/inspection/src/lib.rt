// A detector table and a log as text that a technician reads, exact to the byte.
#![tactic(auto)]

ghost use Rattle.std.specs.Prelude.{◌≡◌, List, ℕ, ◌++◌, IfOk, string_bytes, OnOk};
ghost use Rattle.controller_log.specs.Events.{event};
ghost use Rattle.controller_log.specs.Limits.{channels};
ghost use Rattle.controller_log.specs.Pieces.{pieces};
ghost use Rattle.controller_log.specs.Refusals.{told};
ghost use Rattle.inspection.specs.Listing.{row_line, record_line, event_end, refused_lines, rows_text, rows_count, log_text, listing};

use controller_log::detector::DetectorRow;
use controller_log::event::Event;
use controller_log::limits::CHANNELS;
use controller_log::reader::LogReader;
use controller_log::record::Record;
use controller_log::refusal::Refusal;
use controller_log::table::DetectorTable;
use std::alloc::{AllocError, Global};
use std::marker::Model;

// The text of a detector table and a log: a line for each row and each record, then their numbers,
// or the first refusal.
pub fn inspect(heap: Global, table: &[u8], log: &[u8]) -> Result<String, AllocError>
    ensures { IfOk result (λ s. string_bytes s ≡ listing table.now log.now) }
{
    let mut listing = Listing {
        text: String::new(heap),
    };
    match DetectorTable::read(table) {
        Ok(table) => {
            let rows = listing.add_table(&table)?;
            listing.add_log(rows, log)?;
        }
        Err(refusal) => listing.add_refusal(0, refusal)?,
    }
    Ok(listing.text)
}

// A text that grows line by line; it can only fail for want of memory.
#[derive(Drop)]
struct Listing {
    text: String,
}

impl Model for Listing {
    ghost Value = { List ℕ };

    ghost view = { λ l. string_bytes l.text };
}

impl Listing {
    // The rows in the order of their channels; answers how many there are.
    fn add_table(&mut self, table: &DetectorTable) -> Result<usize, AllocError>
        ensures lines { OnOk result (self.new ≡ self.old ++ rows_text table.now channels) }
        ensures count { IfOk result (λ n. n ≡ rows_count table.now channels) }
    {
        // Counted by hand: a chain in which each line may fail is no plainer.
        let mut rows = 0;
        for channel in 1..=CHANNELS {
            if let Some(row) = table.lookup(channel) {
                self.add_row(channel, row)?;
                rows += 1;
            }
        }
        Ok(rows)
    }

    // The line of a channel's row, which stay two values as they are in a table.
    fn add_row(&mut self, channel: u8, row: DetectorRow) -> Result<(), AllocError>
        ensures { OnOk result (self.new ≡ self.old ++ row_line channel row) }
    {
        let DetectorRow {
            phase,
            uses,
            travel,
            latency,
        } = row;
        writeln!(
            self.text,
            "detector {channel}: phase {phase}, {uses}, travel {travel}, latency {latency}"
        )
    }

    // The records up to the first refusal, or all of them and then how many rows and records there were.
    fn add_log(&mut self, rows: usize, log: &[u8]) -> Result<(), AllocError>
        ensures { OnOk result (self.new ≡ self.old ++ log_text rows 0 (pieces log.now)) }
    {
        // The last number is their count: a second pass that counts, or a fold in which each line may fail, is no plainer.
        let mut records = 0;
        for (number, bytes) in LogReader::new(log) {
            match Record::read(bytes) {
                Ok(record) => self.add_record(number, record)?,
                Err(refusal) => return self.add_refusal(number, refusal),
            }
            records = number;
        }
        writeln!(self.text, "detector rows: {rows}, records: {records}")
    }

    fn add_record(&mut self, number: usize, entry: Record) -> Result<(), AllocError>
        ensures { OnOk result (self.new ≡ self.old ++ record_line number entry) }
    {
        let Record {
            moment,
            code,
            parameter,
        } = entry;
        write!(
            self.text,
            "record {number}: moment {moment}, code {code}, parameter {parameter}"
        )?;
        self.add_event(code)
    }

    // The end of a record's line, by its code as the log has it: the event's name, if the engine knows one.
    fn add_event(&mut self, code: u8) -> Result<(), AllocError>
        ensures { OnOk result (self.new ≡ self.old ++ event_end (event code)) }
    {
        match Event::try_from(code) {
            Ok(event) => writeln!(self.text, ", {event}"),
            Err(_) => writeln!(self.text),
        }
    }

    fn add_refusal(&mut self, number: usize, refusal: Refusal) -> Result<(), AllocError>
        ensures { OnOk result (self.new ≡ self.old ++ refused_lines number (told refusal)) }
    {
        let refused = refusal.number();
        writeln!(self.text, "refused {refused} at record {number}\n{refusal}")
    }
}
