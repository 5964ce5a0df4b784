//! Whole records.
ghost use Rattle.std.specs.Prelude.{◌≡◌, ◌+◌, ◌≤◌, length, take, MatchOption};
ghost use Rattle.bench.specs.Files.{IsRecord, NoRecord};

use crate::head::{Head, read_head};

/// A head, and a payload of the length that it says.
// The length stays in the head, which is handed on and judged whole.
#[derive(Clone, Copy)]
pub(crate) struct Record<'a> {
    pub(crate) head: Head,
    pub(crate) payload: &'a [u8],
    ghost full: { length payload.now ≡ head.length },
}

/// Reads the record with which octets begin; there is none where they hold no whole record.
pub(crate) fn read_record(octets: &[u8]) -> Option<Record<'_>>
    ensures first_or_none { MatchOption result (NoRecord octets.now) (λ r. (4 + r.head.length ≤ length octets.now) × IsRecord (take (4 + r.head.length) octets.now) r.head r.payload.now) }
{
    let head = read_head(octets)?;
    let payload = octets.get(4..4 + usize::from(head.length))?;
    Some(Record { head, payload })
}
