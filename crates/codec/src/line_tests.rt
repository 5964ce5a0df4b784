//! Lines written, read and repaired.
ghost use Rattle.std.specs.Prelude.{◌≡◌, ◌+◌, [], ◌∷◌, length, slice_index};
ghost use Rattle.std.proofs.Common.{rules};

use crate::ends::Parts;
use arithmetic::Tabled;
use code::{BeyondRepair, Code, Word};
use lines::{Ring, Stream};
use std::array;
use std::test::Fail;

/// The first two masks of a master at state 1, then zeros.
#[derive(Clone, Copy)]
struct Started {
    // How many masks were taken, 2 at most.
    given: u8,
}

impl Stream for Started {
    ghost mask = { λ s k. slice_index (273 ∷ 200 ∷ []) (s.given + k) };

    ghost bounded = { Prim.search rules };

    fn next(&mut self) -> u16 {
        // By number, as the ghost member counts the masks.
        match self.given {
            0 => {
                self.given = 1;
                273
            }
            1 => {
                self.given = 2;
                200
            }
            _ => 0,
        }
    }
}

fn parts_at_start() -> Parts<Tabled, Started, Ring> {
    Parts {
        code: Code::new(Tabled),
        stream: Started { given: 0 },
        line_code: Ring,
    }
}

// The codeword of a message, and its line frame.
fn written(symbols: &[u16; 450], line: &mut [i8; 2700]) -> Result<Word, Fail> {
    let mut parts = parts_at_start();
    let mut word = Word::try_from(symbols.as_slice())?;
    parts.code.encode(&mut word);
    parts.write_line(&word, line);
    Ok(word)
}

// Changes one symbol in each of the groups 0, 20, .. 420, and makes the first pair of group 0 two zeros.
// The walkthrough damages its lines and words otherwise, and has the message below: codec would have to export what they share.
fn damage(line: &mut [i8; 2700]) {
    for twenty in line.chunks_exact_mut(120).take(22) {
        twenty[0] = if twenty[0] == 0 { 1 } else { 0 };
    }
    line[0] = 0;
    line[1] = 0;
}

// Makes the first pair of the groups 0, 2, .. 44 two zeros.
fn silence(line: &mut [i8; 2700]) {
    for two in line.chunks_exact_mut(12).take(23) {
        two[0] = 0;
        two[1] = 0;
    }
}

#[test]
fn zeros_are_written_as_masks(rt: HostRuntime) -> Result<(), Fail> {
    let mut line = [0i8; 2700];
    let word = written(&[0; 450], &mut line)?;
    assert_eq!(rt; word.symbols, [0; 450]);
    let mut start = [0i8; 12];
    start.copy_from_slice(&line[..12]);
    assert_eq!(rt; start, [-1, 0, 0, 1, 0, -1, -1, -1, -1, 0, -1, 1]);
    Ok(())
}

#[test]
fn silence_is_unread(rt: HostRuntime) {
    let received = parts_at_start().read_line(&[0i8; 2700]);
    assert_eq!(rt; received.symbols, [None; 450]);
}

#[test]
fn damaged_groups_are_mended(rt: HostRuntime) -> Result<(), Fail> {
    // The walkthrough has it too, see `damage`.
    let mut message = [0u16; 450];
    for (k, symbol) in message[..406].iter_mut().enumerate() {
        *symbol = (k * 7 % 512) as u16;
    }
    let mut line = [0i8; 2700];
    let word = written(&message, &mut line)?;
    damage(&mut line);
    let repaired = parts_at_start().repair_line(&line)?;
    assert_eq!(rt; repaired.word, word);
    let places: [u16; 22] = array::from_fn(|k| (20 * k) as u16);
    assert_eq!(rt; repaired.places.as_slice(), places.as_slice());
    Ok(())
}

#[test]
fn unread_groups_count(rt: HostRuntime) -> Result<(), Fail> {
    let mut line = [0i8; 2700];
    let word = written(&[0; 450], &mut line)?;
    silence(&mut line);
    let received = parts_at_start().read_line(&line);
    assert_eq!(rt; received.fill_erasures(), word);
    let fault = parts_at_start().repair_line(&line).err();
    assert_eq!(rt; fault, Some(BeyondRepair));
    Ok(())
}
