//! Repair: the codeword near a line, and the groups that differ from its line frame.
ghost use Rattle.std.specs.Prelude.{◌≡◌, ◌≤◌, length, MatchResult};
ghost use Rattle.codec.specs.Calls.{parts_end};
ghost use Rattle.codec.specs.Ends.{Later};
ghost use Rattle.codec.specs.Lines.{NoneNear, padded};
ghost use Rattle.codec.specs.Demapping.{Repairs};

use crate::ends::Parts;
use crate::received::REACH;
use arithmetic::Arithmetic;
use arrayvec::ArrayVec;
use code::{BeyondRepair, Word};
use lines::{LineCode, Stream};

/// What pads a list of places: no group has this number.
// A number and no Option: the caller's buffer of places is of numbers.
pub(crate) const NO_PLACE: u16 = 450;

/// The codeword near a line, and the groups that differ from its line frame, ascending.
#[derive(Drop)]
pub struct Repaired {
    pub word: Word,
    pub places: ArrayVec<u16, REACH>,
}

impl<A: Arithmetic, S: Stream, L: LineCode> Parts<A, S, L> {
    /// The codeword whose line frame is near a line, or that none is. A period's masks are used up.
    pub(crate) fn repair_line(&mut self, line: &[i8; 2700]) -> Result<Repaired, BeyondRepair>
        ensures near_or_none { let end = parts_end A.field S.mask L.pair self.old in MatchResult result
            (λ r. Repairs end line.now r.word.symbols r.places.items)
            (λ _. NoneNear end 0 line.now) }
        ensures stands_later { let end = parts_end A.field S.mask L.pair in Later 1 (end self.old) (end self.new) }
    {
        let received = self.read_line(line);
        let mut word = received.fill_erasures();
        self.code.decode(&mut word)?;
        let places = received.list_places(&word)?;
        Ok(Repaired { word, places })
    }
}

/// Writes places, padded with `NO_PLACE`.
pub(crate) fn write_places(places: &[u16], buffer: &mut [u16; 22])
    requires { length places.now ≤ 22 }
    ensures { buffer.new ≡ padded places.now }
{
    buffer.fill(NO_PLACE);
    buffer[..places.len()].copy_from_slice(places);
}
