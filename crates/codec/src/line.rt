//! Lines: codewords written as 2,700 line symbols, and line symbols read as code symbols.
// Line symbols are numbers here: as a list of `Symbol`s a line would be copied out of the caller's buffer and into it.
ghost use Rattle.std.specs.Prelude.{◌≡◌, ◌<◌, length, MatchResult, not, position};
ghost use Rattle.std.specs.List.{prefix_len};
ghost use Rattle.lines.specs.LineCodes.{is_line_symbol};
ghost use Rattle.codec.specs.Calls.{parts_end};
ghost use Rattle.codec.specs.Ends.{Later};
ghost use Rattle.codec.specs.Lines.{line_group, line_frame};
ghost use Rattle.codec.specs.Demapping.{GroupRead, Descrambled, Demapped};

use crate::ends::Parts;
use crate::faults::LineFault;
use crate::received::Received;
use arithmetic::Arithmetic;
use code::Word;
use lines::{LineCode, Stream, Symbol};

/// The place of the first number that is no line symbol.
fn first_no_symbol(line: &[i8]) -> Option<usize>
    ensures { result ≡ position (λ s. not (is_line_symbol s)) line.now }
{
    // A place, for the fault that is told: the error of try_from has the number alone.
    line.iter().position(|s| Symbol::try_from(*s).is_err())
}

/// Refuses the first number that is no line symbol.
pub(crate) fn check_line(line: &[i8]) -> Result<(), LineFault>
    ensures { MatchResult result (λ _. prefix_len is_line_symbol line.now ≡ length line.now) (λ e. (prefix_len is_line_symbol line.now < length line.now) × (e ≡ LineFault.NoLineSymbol (prefix_len is_line_symbol line.now))) }
{
    match first_no_symbol(line) {
        Some(place) => Err(LineFault::NoLineSymbol { place }),
        None => Ok(()),
    }
}

/// Writes the group of a scrambled symbol. A copy of all six symbols at once would wait for the pairs to be stored.
fn write_group<L: LineCode>(line_code: &L, scrambled: u16, group: &mut [i8])
    // A number of nine bits, as masks are (see `Stream`).
    requires nine_bits { scrambled < 512 }
    // A length, and no `&mut [i8; 6]`: `as_chunks_mut` says nothing of what the slice ends as.
    requires six { length group.old ≡ 6 }
    ensures { group.new ≡ line_group (L.pair line_code.now) scrambled }
{
    (group[0], group[1]) = line_code.write((scrambled % 8) as u8);
    (group[2], group[3]) = line_code.write((scrambled / 8 % 8) as u8);
    (group[4], group[5]) = line_code.write((scrambled / 64) as u8);
}

/// The scrambled symbol of a group, and none where no word writes one of its pairs.
// Pair by pair, as `write_group` writes them: a loop over three would be longer.
fn read_group<L: LineCode>(line_code: &L, group: &[i8; 6]) -> Option<u16>
    ensures { GroupRead (L.pair line_code.now) group.now result }
{
    let low = line_code.read(group[0], group[1])?;
    let middle = line_code.read(group[2], group[3])?;
    let high = line_code.read(group[4], group[5])?;
    Some(u16::from(low) + 8 * u16::from(middle) + 64 * u16::from(high))
}

/// The symbol of a group, and none where no word writes one of its pairs.
fn descramble<L: LineCode>(line_code: &L, mask: u16, group: &[i8; 6]) -> Option<u16>
    requires mask { mask < 512 }
    ensures { Descrambled (L.pair line_code.now) mask group.now result }
{
    Some(read_group(line_code, group)? ^ mask)
}

impl<A: Arithmetic, S: Stream, L: LineCode> Parts<A, S, L> {
    /// Writes the line frame of a word, and uses up a period's masks.
    pub(crate) fn write_line(&mut self, word: &Word, line: &mut [i8; 2700])
        ensures written { line.new ≡ line_frame (parts_end A.field S.mask L.pair self.old) 0 word.now.symbols }
        ensures stands_later { let end = parts_end A.field S.mask L.pair in Later 1 (end self.old) (end self.new) }
    {
        // Taken apart here and in `read_line`, so that only the stream moves in the loop: with `self.stream` in it the invariant would
        // have to say of the other parts that they stay.
        let Parts {
            stream,
            line_code,
            ..
        } = self;
        // The groups by index: tried as `line.chunks_exact_mut(6).zip(..)`, of which a proof knows the length
        // alone, and nothing of what is written.
        for (k, symbol) in word.symbols.iter().enumerate() {
            let mask = stream.next();
            write_group(line_code, *symbol ^ mask, &mut line[6 * k..6 * k + 6]);
        }
    }

    /// Reads a line group by group, and uses up a period's masks.
    pub(crate) fn read_line(&mut self, line: &[i8; 2700]) -> Received
        ensures demapped { let end = parts_end A.field S.mask L.pair self.old in Demapped end.pair end.mask line.now result.symbols }
        ensures stands_later { let end = parts_end A.field S.mask L.pair in Later 1 (end self.old) (end self.new) }
    {
        let Parts {
            stream,
            line_code,
            ..
        } = self;
        let (groups, _) = line.as_chunks::<6>();
        let mut symbols = [None; 450];
        // By index: tried as `array::from_fn`, whose closure takes masks from the stream, and the proof didn't close.
        for (k, group) in groups.iter().enumerate() {
            let mask = stream.next();
            symbols[k] = descramble(line_code, mask, group);
        }
        Received { symbols }
    }

    /// Uses up a period's masks.
    pub(crate) fn pass_masks(&mut self)
        ensures stands_later { let end = parts_end A.field S.mask L.pair in Later 1 (end self.old) (end self.new) }
    {
        let stream = &mut self.stream;
        for _k in 0..450usize {
            // Each mask is dropped, and no Result is; the number counts them, and is no index.
            let _ = stream.next();
        }
    }
}
