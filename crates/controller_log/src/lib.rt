// Everything that is read from bytes: log records, detector tables, and the refusals that meet bad ones.
#![tactic(auto)]

pub mod detector;
pub mod event;
pub mod limits;
pub mod reader;
pub mod record;
pub mod refusal;
pub mod table;
