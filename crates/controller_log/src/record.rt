// A log record and its 8 bytes.
ghost use Rattle.std.specs.Prelude.{◌≡◌, ◌≤◌, IfOk, Ok};
ghost use Rattle.controller_log.specs.Limits.{max_moment};
ghost use Rattle.controller_log.specs.Refusals.{answer};
ghost use Rattle.controller_log.specs.Records.{read_record, record_bytes};

use crate::limits::{MAX_MOMENT, RECORD_SIZE};
use crate::refusal::Refusal;

#[derive(Clone, Copy, PartialEq, Eq, Debug)]
pub struct Record {
    pub moment: u32,
    // Any byte: a log has codes by which the engine knows no event.
    pub code: u8,
    pub parameter: u8,
}

impl Record {
    // The record of 8 bytes, or the first refusal that meets them.
    // A method: a TryFrom would say its three promises as one, without their names.
    pub fn read(bytes: &[u8]) -> Result<Record, Refusal>
        ensures value { answer result ≡ read_record bytes.now }
        ensures moment { IfOk result (λ d. d.moment ≤ max_moment) }
        ensures written_back { IfOk result (λ d. record_bytes d ≡ bytes.now) }
    {
        let [m0, m1, m2, m3, code, parameter, z0, z1, rest @ ..] = bytes else {
            return Err(Refusal::RecordLength);
        };
        if !rest.is_empty() {
            return Err(Refusal::RecordLength);
        }
        if *z0 != 0 || *z1 != 0 {
            return Err(Refusal::RecordPadding);
        }
        let moment = u32::from_le_bytes([*m0, *m1, *m2, *m3]);
        if moment > MAX_MOMENT {
            return Err(Refusal::MomentTooLate);
        }
        Ok(Record {
            moment,
            code: *code,
            parameter: *parameter,
        })
    }

    // The 8 bytes of a record; they read back as the record, unless its moment is over the limit.
    // A method, so that both promises have their names.
    pub fn to_bytes(&self) -> [u8; RECORD_SIZE]
        ensures value { result ≡ record_bytes self.now }
        ensures read_back { self.now.moment ≤ max_moment → read_record result ≡ Ok self.now }
    {
        let [m0, m1, m2, m3] = self.moment.to_le_bytes();
        [m0, m1, m2, m3, self.code, self.parameter, 0, 0]
    }
}
