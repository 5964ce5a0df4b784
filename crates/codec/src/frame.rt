//! Frames: 45 blocks and the management symbol as code symbols, and back.
ghost use Rattle.std.specs.Prelude.{◌≡◌, ℕ, ◌+◌, ◌-◌, ◌*◌, ◌%◌, ◌^◌, ◌<◌, ◌≤◌, length, map, take, slice_index};
ghost use Rattle.blocks.specs.Bits.{packed, unpacked};
ghost use Rattle.blocks.specs.Numbers.{number_of};
ghost use Rattle.code.specs.Words.{Codeword};
ghost use Rattle.codec.specs.Frames.{block_bits, block_from, message_of};
ghost use Rattle.codec.specs.Reports.{FrameTold};
ghost use Rattle.codec.specs.Numbering.{TenTold};

use crate::faults::FrameFault;
use crate::report::BlockReport;
use arithmetic::Arithmetic;
use blocks::{Character, encode, read_block};
use code::{Code, Word};
use std::array;

/// The number of the error character.
// A number and no Character: buffers of callers are filled with it, which are of numbers.
pub(crate) const ERROR: u16 = 257;

/// The place of the management symbol in a word.
pub(crate) const MANAGEMENT: usize = 405;

/// The low bits of a number, moved up.
fn low_bits(number: u16, bits: usize, by: usize) -> u16
    requires { bits + by ≤ 9 }
    ensures { result ≡ 2 ^ by * (number % 2 ^ bits) }
{
    (number & ((1 << bits) - 1)) << by
}

/// Symbol j of the nine that hold a block's 81 bits: the end of one octet and the start of the next.
fn symbol_at(block: &[u8; 11], j: usize) -> u16
    requires bit { slice_index block.now 0 < 2 }
    requires one_of_nine { j < 9 }
    ensures { result ≡ slice_index (packed 9 9 (block_bits block.now)) j }
{
    if j == 0 {
        return u16::from(block[0]) + 2 * u16::from(block[1]);
    }
    let low = u16::from(block[j + 1] >> (j - 1));
    let high = low_bits(u16::from(block[j + 2]), j, 9 - j);
    low + high
}

/// The nine symbols of a block.
fn symbols_of(block: &[u8; 11]) -> [u16; 9]
    requires bit { slice_index block.now 0 < 2 }
    ensures { result ≡ packed 9 9 (block_bits block.now) }
{
    array::from_fn(|j| symbol_at(block, j))
}

/// What a frame carries: 450 characters, and a management symbol of nine bits.
#[derive(Clone, Copy)]
pub(crate) struct Frame {
    pub(crate) characters: [Character; 450],
    pub(crate) symbol: u16,
    ghost nine_bits: { symbol < 512 },
}

impl Frame {
    /// The 406 symbols of the frame, with zeros for the parity.
    pub(crate) fn word(&self) -> Word
        ensures { take 406 result.symbols ≡ message_of (map number_of self.now.characters) self.now.symbol }
    {
        let mut symbols = [0u16; 450];
        let (tens, _) = self.characters.as_chunks::<10>();
        // By index: `as_chunks_mut` says nothing of what the slice ends as.
        for (k, ten) in tens.iter().enumerate() {
            symbols[9 * k..9 * k + 9].copy_from_slice(&symbols_of(&encode(ten)));
        }
        symbols[MANAGEMENT] = self.symbol;
        Word { symbols }
    }

    /// The codeword that carries the frame.
    pub(crate) fn codeword<A: Arithmetic>(&self, code: &Code<A>) -> Word
        ensures carries { take 406 result.symbols ≡ message_of (map number_of self.now.characters) self.now.symbol }
        ensures codeword { Codeword (A.field code.now.arithmetic) result.symbols }
    {
        let mut word = self.word();
        code.encode(&mut word);
        word
    }
}

/// A block's 81 bits as nine symbols.
#[derive(Clone, Copy)]
struct PackedBlock<'a> {
    symbols: &'a [u16; 9],
    ghost nine: { length symbols.now ≡ 9 },
    ghost small: { (k : ℕ) → slice_index symbols.now k < 512 },
}

impl PackedBlock<'_> {
    /// What symbol i adds to octet i of the payload: its low bits, as the octet's high ones; nothing to the last octet.
    fn high_bits(&self, i: usize) -> u16
        requires after_the_first { 0 < i }
        requires one_of_ten { i < 10 }
        ensures { result ≡ 2 ^ (i - 1) * (slice_index self.now.symbols.now i % 2 ^ (9 - i)) }
    {
        if i == 9 {
            return 0;
        }
        low_bits(self.symbols[i], 9 - i, i - 1)
    }

    /// Octet i of the payload: the end of one symbol and the start of the next.
    fn payload_octet(&self, i: usize) -> u8
        requires one_of_ten { i < 10 }
        ensures { result ≡ slice_index (block_from (unpacked 9 self.now.symbols.now)) (1 + i) }
    {
        if i == 0 {
            return (self.symbols[0] >> 1) as u8;
        }
        let low = self.symbols[i - 1] >> (10 - i);
        let high = self.high_bits(i);
        (low + high) as u8
    }

    /// Octet i of the block: the header bit, then the payload.
    fn octet(&self, i: usize) -> u8
        requires one_of_eleven { i < 11 }
        ensures { result ≡ slice_index (block_from (unpacked 9 self.now.symbols.now)) i }
    {
        if i == 0 {
            (self.symbols[0] % 2) as u8
        } else {
            self.payload_octet(i - 1)
        }
    }

    /// The block.
    fn block(&self) -> [u8; 11]
        ensures { result ≡ block_from (unpacked 9 self.now.symbols.now) }
    {
        array::from_fn(|i| self.octet(i))
    }
}

/// Reads block k, given as nine symbols, into its ten characters; ten errors for an invalid block.
// Into numbers, as the caller's buffer has them: by way of `decode` each would be made a value and a number again.
fn read_ten(k: usize, packed: PackedBlock, ten: &mut [u16]) -> Result<(), FrameFault>
    // A length, and no `&mut [u16; 10]`: `as_chunks_mut` says nothing of what the slice ends as.
    requires part_of_ten { length ten.old ≡ 10 }
    ensures { TenTold k (block_from (unpacked 9 packed.entry.symbols.now)) ten.new result }
{
    match read_block(&packed.block(), ten) {
        Ok(()) => Ok(()),
        Err(fault) => {
            ten.fill(ERROR);
            Err(FrameFault::from((k, fault)))
        }
    }
}

/// Reads the blocks of a word one after another, each into its own ten characters.
pub(crate) fn read_frame(word: &Word, characters: &mut [u16; 450]) -> BlockReport
    ensures { FrameTold word.now.symbols characters.new result.invalid result.fault }
{
    let mut invalid = 0u64;
    let mut fault = None;
    let (nines, _) = word.symbols[..MANAGEMENT].as_chunks::<9>();
    // The characters by index: `as_chunks_mut` says nothing of what the slice ends as.
    for (k, symbols) in nines.iter().enumerate() {
        let packed = PackedBlock { symbols };
        if let Err(found) = read_ten(k, packed, &mut characters[10 * k..10 * k + 10]) {
            invalid += 1 << k;
            fault = fault.or(Some(found));
        }
    }
    BlockReport { invalid, fault }
}
