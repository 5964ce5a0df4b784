//! What a call on an end is refused for, before it is a period.
ghost use Rattle.std.specs.Prelude.{◌≡◌, List, ℤ, length, map, MatchResult, IfOk, ◌≢◌};
ghost use Rattle.blocks.specs.Numbers.{number_of};
ghost use Rattle.codec.specs.Calls.{send as sent};
ghost use Rattle.codec.specs.Locks.{new_lock};
ghost use Rattle.codec.specs.Checking.{Checked};

use crate::faults::EndFault;
use crate::frame::Frame;
use crate::lock::Lock;
use blocks::parse;

/// A buffer as an array, where it has the array's length.
// There is none for a buffer that is written: one with the clause `LendsIfOk` was tried, and the proof didn't close where a slice
// is lent.
pub(crate) fn array_of<T, const N: usize>(buffer: &[T], number: usize) -> Result<&[T; N], EndFault>
    ensures { MatchResult result (λ a. (length buffer.now ≡ N) × (a.now ≡ buffer.now)) (λ e. (length buffer.now ≢ N) × (e ≡ EndFault.Length number)) }
{
    buffer.as_array().ok_or(EndFault::Length { buffer: number })
}

/// Refuses a receiver without lock.
pub(crate) fn check_lock(lock: Lock) -> Result<(), EndFault>
    ensures { MatchResult result (λ _. lock ≢ Lock.Lost) (λ e. (lock ≡ Lock.Lost) × (e ≡ EndFault.NoLock)) }
{
    match lock {
        Lock::Locked { .. } => Ok(()),
        Lock::Lost => Err(EndFault::NoLock),
    }
}

/// The frame of a send whose buffers have their lengths, or what it is refused for.
pub(crate) fn check_frame(numbers: &[u16; 450], symbol: u16) -> Result<Frame, EndFault>
    ensures checked { (line : List ℤ) → length line ≡ 2700 → Checked new_lock (sent numbers.now symbol line) result }
    ensures parsed { IfOk result (λ frame. (map number_of frame.characters ≡ numbers.now) × (frame.symbol ≡ symbol)) }
{
    if symbol > 511 {
        return Err(EndFault::ManagementSymbol);
    }
    let characters = parse(numbers)?;
    Ok(Frame { characters, symbol })
}
