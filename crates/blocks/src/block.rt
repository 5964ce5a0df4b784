//! Blocks of ten characters.
ghost use Rattle.std.specs.Prelude.{◌≡◌, ℕ, ◌+◌, ◌<◌, ◌≤◌, List, ◌∷◌, length, map, IfErr, Ok, Err, MatchOption, MatchResult, OnOk, slice_index};
ghost use Rattle.blocks.specs.Characters as numbers;
ghost use Rattle.blocks.specs.Numbers.{number_of};
ghost use Rattle.blocks.specs.Faults.{block_refusal};
ghost use Rattle.blocks.specs.Blocks.{led, Encodes, EncodesOnly, EncodesNone, InvalidField, WriteRefused, ReadRefused};
ghost use Rattle.blocks.specs.Steps.{turned, octet as octet_of, stepped, started, read_at as read_from, reading, by_number};

use crate::ahead::Ahead;
use crate::character::{Character, Control, parse};
use crate::faults::BlockFault;

/// Three bits in the other order.
// By arithmetic: `reverse_bits` turns eight, and five would have to be dropped again; the table of lines would be a second thing to
// prove, for a control alone.
fn turn(three: u8) -> u8
    ensures { result ≡ turned three }
{
    4 * (three % 2) + 2 * (three / 2 % 2) + three / 4
}

/// The pointer from octet `k` on, of which `later` is the one from the next octet on.
// Position and whether another follows, in five bits as the payload has them: apart they would only be put together again.
fn lead(k: u8, c: Character, later: Option<u8>) -> Option<u8>
    requires { k < 16 }
    ensures pointer { result ≡ led k (number_of c) later }
    ensures of_a_character { numbers.Character (number_of c) }
{
    match (c, later) {
        (Character::Data(_), later) => later,
        (Character::Control(_), None) => Some(k),
        (Character::Control(_), Some(_)) => Some(k + 16),
    }
}

/// A payload octet, where `pointer` is the one from this octet on: its low five bits are the pointer after a control
/// and the rest of the octet before otherwise.
fn octet(before: Character, pointer: Option<u8>, c: Character) -> u8
    requires { MatchOption pointer (number_of c < 256) (λ p. p < 32) }
    ensures { result ≡ octet_of (number_of before) pointer (number_of c) }
{
    let Some(pointer) = pointer else {
        let Character::Data(octet) = c else {
            unreachable!()
        };
        return octet;
    };
    let low = match before {
        Character::Data(octet) => octet / 8,
        Character::Control(_) => pointer,
    };
    let high = match c {
        Character::Data(octet) => octet % 8,
        Character::Control(control) => turn(control.code()),
    };
    low + 32 * high
}

/// The character of an octet before or at the control that `pointer` names.
// The octet, its number and the next one side by side, here and below: a struct would be made for these two calls alone.
fn read_at(pointer: u8, k: usize, octet: u8, next: u8) -> Result<(Character, Ahead), BlockFault>
    ensures { by_number result ≡ read_from pointer k octet next }
{
    if usize::from(pointer % 16) != k {
        let rest = octet / 32 + 8 * (next % 32);
        return Ok((Character::Data(rest), Ahead::Control { pointer }));
    }
    // The fault names the octet, which the error doesn't know.
    let control = Control::try_from(turn(octet / 32)).map_err(|_| BlockFault::ReservedCode {
        octet: k,
    })?;
    let after = if pointer < 16 {
        Ahead::Nothing
    } else {
        Ahead::Pointer
    };
    Ok((Character::Control(control), after))
}

/// The character of octet `k`, and what is waited for after it.
fn step(ahead: Ahead, k: usize, octet: u8, next: u8) -> Result<(Character, Ahead), BlockFault>
    ensures { by_number result ≡ stepped ahead k octet next }
{
    match ahead {
        Ahead::Nothing => Ok((Character::Data(octet), Ahead::Nothing)),
        Ahead::Control { pointer } => read_at(pointer, k, octet, next),
        Ahead::Pointer => {
            let pointer = octet % 32;
            let position = usize::from(pointer % 16);
            // 25 is position 9 with another control to follow, for which no octet is left.
            if k <= position && position < 10 && pointer != 25 {
                read_at(pointer, k, octet, next)
            } else {
                Err(BlockFault::InvalidPointer { octet: k })
            }
        }
    }
}

/// The character before octet `k`; octet 0 is as after a control, since a pointer is due there.
// No Option: none would be treated as a control is, and the clauses put a 256 before the ten.
fn preceding(characters: &[Character; 10], k: usize) -> Character
    requires { k ≤ 10 }
    ensures { number_of result ≡ slice_index (256 ∷ map number_of characters.now) k }
{
    match characters[..k].last() {
        Some(before) => *before,
        None => Character::Control(Control::NotReady),
    }
}

/// Writes the block of ten characters: its payload from the last octet on, and then its header.
fn fill(characters: &[Character; 10], block: &mut [u8; 11])
    ensures { Encodes block.new (map number_of characters.now) }
{
    let mut pointer = None;
    // By number: `k` is the position that a pointer names, so a zip with the octets and the characters before would count it as well.
    for (k, c) in characters.iter().enumerate().rev() {
        pointer = lead(k as u8, *c, pointer);
        block[k + 1] = octet(preceding(characters, k), pointer, *c);
    }
    block[0] = u8::from(pointer.is_some());
}

/// The block of ten characters.
pub fn encode(characters: &[Character; 10]) -> [u8; 11]
    ensures block_they_make { Encodes result (map number_of characters.now) }
{
    let mut block = [0; 11];
    fill(characters, &mut block);
    block
}

/// Writes the block of ten characters. A refusal leaves the block as it was.
// Over numbers, as callers have them and the refusal names them; `encode` goes by values.
pub fn write_block(characters: &[u16], block: &mut [u8]) -> Result<(), BlockFault>
    ensures block_they_make_or_refused { MatchResult result (λ _. Encodes block.new characters.now) (λ e. WriteRefused characters.now block.old (block_refusal e)) }
    ensures refusal_writes_nothing { IfErr result (λ e. block.new ≡ block.old) }
{
    let numbers = characters.as_array().ok_or(BlockFault::InputLength)?;
    let block = block.as_mut_array().ok_or(BlockFault::OutputLength)?;
    let ten = parse(numbers)?;
    fill(&ten, block);
    Ok(())
}

/// What a reader waits for at octet 0.
fn start(header: u8) -> Result<Ahead, BlockFault>
    ensures { result ≡ started header }
{
    match header {
        0 => Ok(Ahead::Nothing),
        1 => Ok(Ahead::Pointer),
        _ => Err(BlockFault::InvalidPointer { octet: 0 }),
    }
}

/// What a reader makes of a character: the character itself or its number.
// A trait and no From<Character>: the clauses need the number of what is read, of which a From says nothing.
trait ReadAs: Copy {
    ghost number: { Self → ℕ };

    fn of(c: Character) -> Self
        ensures { number result ≡ number_of c };
}

impl ReadAs for Character {
    ghost number = { number_of };

    fn of(c: Character) -> Character {
        c
    }
}

impl ReadAs for u16 {
    ghost number = { λ n. n };

    fn of(c: Character) -> u16 {
        u16::from(c)
    }
}

/// Reads the characters of a payload, where `first` is waited for at its first octet.
// No `&[u8; 10]`: the check doesn't cover `[header, payload @ ..]` at a `&[u8; 11]`.
fn read_payload<R: ReadAs>(
    first: Ahead,
    payload: &[u8],
    ten: &mut [R; 10],
) -> Result<(), BlockFault>
    requires { length payload.now ≡ 10 }
    ensures { MatchResult result
        (λ _. reading first 0 payload.now ≡ Ok (map R.number ten.new))
        (λ fault. reading first 0 payload.now ≡ Err fault) }
{
    let mut ahead = first;
    // By number: `k` is the octet that a pointer or a fault names. A zip with the octets that follow and the places of `ten` would
    // count it as well, and of what is written under a zip of `iter_mut` a proof knows nothing.
    for (k, octet) in payload.iter().enumerate() {
        // 0 where none follows, and no Option: the rule of reading has it so, and the last octet never needs the next.
        let next = payload.get(k + 1).copied().unwrap_or(0);
        let (c, after) = step(ahead, k, *octet, next)?;
        ten[k] = R::of(c);
        ahead = after;
    }
    Ok(())
}

/// Reads the ten characters of a block. A refusal may leave some of them changed.
fn read<R: ReadAs>(block: &[u8; 11], ten: &mut [R; 10]) -> Result<(), BlockFault>
    ensures { MatchResult result
        (λ _. EncodesOnly block.now (map R.number ten.new))
        (λ fault. InvalidField block.now (block_refusal fault) × EncodesNone block.now) }
{
    read_payload(start(block[0])?, &block[1..], ten)
}

/// The ten characters of a block.
pub fn decode(block: &[u8; 11]) -> Result<[Character; 10], BlockFault>
    ensures encoded_ten_or_invalid { MatchResult result
        (λ ten. EncodesOnly block.now (map number_of ten))
        (λ fault. InvalidField block.now (block_refusal fault) × EncodesNone block.now) }
{
    let mut ten = [Character::Data(0); 10];
    read(block, &mut ten)?;
    Ok(ten)
}

/// Writes the ten characters of a block. A refusal leaves the characters as they were.
// Over numbers, as callers have them; `decode` goes by values.
pub fn read_block(block: &[u8], characters: &mut [u16]) -> Result<(), BlockFault>
    ensures encoded_ten_or_refused { MatchResult result (λ _. Encodes block.now characters.new) (λ e. ReadRefused block.now characters.old (block_refusal e)) }
    ensures no_other_ten_make_it { OnOk result ((others : List ℕ) → Encodes block.now others → others ≡ characters.new) }
    ensures refusal_writes_nothing { IfErr result (λ e. characters.new ≡ characters.old) }
{
    let block = block.as_array().ok_or(BlockFault::InputLength)?;
    let characters = characters.as_mut_array().ok_or(BlockFault::OutputLength)?;
    let mut ten = [0u16; 10];
    read(block, &mut ten)?;
    *characters = ten;
    Ok(())
}
