//! The payload of a record: what a send and a hit carry.
ghost use Rattle.std.specs.Prelude.{◌≡◌, ◌+◌, ◌*◌, List, length, MatchResult, OnErr, ◌≢◌};
ghost use Rattle.bench.specs.Records.{send_payload, IsHit, IsNoHit};

use crate::faults::BenchFault;
use crate::head::two;

/// A place of the line, and the symbol that is put there.
#[derive(Clone, Copy, PartialEq, Eq, Debug)]
pub struct Hit {
    pub place: usize,
    // A number and no Symbol: it is put on the line, whose buffer is of numbers as the calls of the ends take it.
    pub symbol: i8,
}

/// Reads a send's payload: the characters into the buffer, as many as it holds, and the management symbol as the answer.
/// A payload of another length is refused; `number` is the record's number.
// Into numbers, as the calls of the ends take them: a send refuses those that are no characters.
pub fn read_send(payload: &[u8], number: usize, characters: &mut [u16]) -> Result<u16, BenchFault>
    ensures symbol_then_characters_or_refused { MatchResult result
        (λ symbol. payload.now ≡ send_payload symbol characters.new)
        (λ e. (length payload.now ≢ 2 + 2 * length characters.old) × (e ≡ BenchFault.BadRecord number)) }
    ensures refusal_writes_nothing { OnErr result (characters.new ≡ characters.old) }
{
    let bad = BenchFault::BadRecord { record: number };
    let [low, high, numbers @ ..] = payload else {
        return Err(bad);
    };
    if numbers.len() != 2 * characters.len() {
        return Err(bad);
    }
    // A zip with chunks_exact was tried: a proof knows nothing of what it leaves in the characters.
    for (k, c) in characters.iter_mut().enumerate() {
        *c = two(numbers[2 * k], numbers[2 * k + 1]);
    }
    Ok(two(*low, *high))
}

/// Reads a hit's payload; `number` is the record's number.
pub fn read_hit(payload: &[u8], number: usize) -> Result<Hit, BenchFault>
    ensures hit_or_refused { MatchResult result (λ hit. IsHit payload.now hit) (λ e. IsNoHit payload.now × (e ≡ BenchFault.BadRecord number)) }
{
    let bad = BenchFault::BadRecord { record: number };
    let [low, high, written] = payload else {
        return Err(bad);
    };
    let place = usize::from(two(*low, *high));
    if place >= 2700 || *written > 2 {
        return Err(bad);
    }
    Ok(Hit {
        place,
        symbol: *written as i8 - 1,
    })
}
