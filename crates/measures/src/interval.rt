// What a signal shows, as a measure follows it through a cycle.
#[derive(Clone, Copy, PartialEq, Eq, Debug)]
pub enum Interval {
    Green,
    Yellow,
    RedClearance,
    Red,
}
