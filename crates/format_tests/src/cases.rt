// What the tests share: rows in bytes, and the number of an answer.
use controller_log::refusal::Refusal;

// The 8 bytes of a table row, with any values.
pub(crate) fn row(
    channel: u8,
    phase: u8,
    uses: u8,
    zero: u8,
    travel: u16,
    latency: u16,
) -> [u8; 8] {
    let [t0, t1] = travel.to_le_bytes();
    let [l0, l1] = latency.to_le_bytes();
    [channel, phase, uses, zero, t0, t1, l0, l1]
}

// The number of a refusal as listings print it, if there is one.
pub(crate) fn refused<T: Drop>(answer: Result<T, Refusal>) -> Option<u8> {
    answer.err().map(|refusal| refusal.number())
}
