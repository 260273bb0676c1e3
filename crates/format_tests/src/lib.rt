// Tests of the formats at the edges of every range, both sides.
#![tactic(auto)]

#[cfg(test)]
mod cases;
#[cfg(test)]
mod detector_tables;
#[cfg(test)]
mod listings;
#[cfg(test)]
mod log_readers;
#[cfg(test)]
mod log_records;
