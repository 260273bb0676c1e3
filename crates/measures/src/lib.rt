// What is counted in a signal cycle: one trait for every measure, three measures, and the debouncing layer over any of them.
#![tactic(auto)]

pub mod arrivals;
pub mod channels;
pub mod cycle;
pub mod debounced;
pub mod interval;
pub mod limits;
pub mod measure;
pub mod own;
pub mod red_light;
pub mod severity;
pub mod split_failures;
