// What a log reader yields: the bytes of each record with its number from 1, a short last piece too.
ghost use Rattle.std.specs.Prelude.{◌≡◌, length, min};
ghost use Rattle.std.specs.Iterator.{at_most};
ghost use Rattle.std.specs.Iterator.Adapters.{enumerate_source};
ghost use Rattle.std.specs.Slice.Iter.{chunks_rest};
ghost use Rattle.controller_log.specs.Pieces.{pieces, Cuts};
ghost use Rattle.controller_log.specs.Readers.{yet_to_come, last_number, Yields};

use crate::limits::RECORD_SIZE;
use crate::reader::LogReader;

impl<'a> LogReader<'a> {
    // A reader at the start of a log.
    pub fn new(log: &'a [u8]) -> LogReader<'a>
        ensures to_come { yet_to_come result ≡ pieces log.now }
        ensures whole { Cuts log.now (yet_to_come result) }
        ensures number { last_number result ≡ 0 }
    {
        LogReader {
            chunks: log.chunks(RECORD_SIZE).enumerate(),
        }
    }
}

impl<'a> Iterator for LogReader<'a> {
    type Item = (usize, &'a [u8]);

    ghost next_gives = { Yields };

    // No more than the pieces that are left, nor than their bytes: a slice has fewer than 2^63, so the library's methods can count them.
    ghost remaining = { λ s. at_most (min (length (yet_to_come s)) (length (chunks_rest (enumerate_source s.chunks)))) };

    fn next(&mut self) -> Option<(usize, &'a [u8])> {
        let (before, piece) = self.chunks.next()?;
        Some((before + 1, piece))
    }
}
