// A log read record by record. The struct stands alone here, since its specs name it.
ghost use Rattle.std.specs.Prelude.{◌≡◌, ◌+◌, ◌^◌, ◌<◌, length};
ghost use Rattle.std.specs.Iterator.Adapters.{enumerate_source, enumerate_count};
ghost use Rattle.std.specs.Slice.Iter.{chunks_rest, chunks_size};
ghost use Rattle.controller_log.specs.Limits.{record_size};

mod records;

use std::iter::Enumerate;
use std::slice::Chunks;

// A cursor over a log's pieces, which counts them.
// Ghost fields and no model: a model would hide from whoever is handed a reader how its pieces lie and that they can be counted.
// The records that came and the bytes that are left are together no more than the log's bytes, so whoever counts on has room.
#[derive(Drop)]
pub struct LogReader<'a> {
    chunks: Enumerate<Chunks<'a, u8>>,
    ghost eights: { chunks_size (enumerate_source chunks) ≡ record_size },
    ghost countable: { enumerate_count chunks + length (chunks_rest (enumerate_source chunks)) < 2 ^ 63 },
}
