//! Receiving: frames, rests and the lock.
ghost use Rattle.std.specs.Prelude.{◌≡◌};
ghost use Rattle.codec.specs.Calls.{Answers, receive as received, receiver_rest, done, accepted, periods_of, lock_after, receiver_end};
ghost use Rattle.codec.specs.Ends.{End, LawfulEnd, made_over, Later};
ghost use Rattle.codec.specs.Locks.{new_lock};
ghost use Rattle.codec.specs.declared.lock.Lock.{Lock};

use crate::checks::{array_of, check_lock};
use crate::ends::{Parts, Receiver};
use crate::faults::EndFault;
use crate::frame::{ERROR, MANAGEMENT, read_frame};
use crate::line::check_line;
use crate::lock::{FrameOutcome, Lock};
use crate::repair::{NO_PLACE, write_places};
use crate::report::Report;
use arithmetic::Arithmetic;
use code::{Code, CodeFault};
use lines::{LineCode, Stream};

/// An end that receives.
pub trait Receiving {
    // What the end is made over, as it stands now: its masks are those still to come.
    ghost end: { Self → End };

    ghost lock: { Self → Lock };

    // Three buffers of numbers side by side: callers have them so, and the refusals name each by its number and its numbers by their places.
    /// Hands out the characters of a line and the places of its damage; errors and no place where it is beyond repair.
    fn receive(
        &mut self,
        line: &[i8],
        characters: &mut [u16],
        places: &mut [u16],
    ) -> Result<Report, EndFault>
        ensures answers_by_its_rule { Answers (end self.old) 0 (lock self.old) (received line.now characters.old places.old) (received line.now characters.new places.new) (accepted result) }
        ensures stands_later { Later (periods_of (accepted result)) (end self.old) (end self.new) }
        ensures lock_moves { lock self.new ≡ lock_after (lock self.old) (accepted result) };

    /// Uses up a period's masks.
    fn rest(&mut self) -> Result<(), EndFault>
        ensures answers_by_its_rule { Answers (end self.old) 0 (lock self.old) receiver_rest receiver_rest (done result) }
        ensures stands_later { Later (periods_of (done result)) (end self.old) (end self.new) }
        ensures lock_stays { lock self.new ≡ lock self.old };

    ghost lawful: { (r : Self) → LawfulEnd (end r) };
}

impl<A: Arithmetic, S: Stream, L: LineCode> Receiver<A, S, L> {
    /// A new receiver over an arithmetic, a stream and a line code: it has lock, and no run of bad frames.
    pub fn new(arithmetic: A, stream: S, line_code: L) -> Receiver<A, S, L>
        ensures stands_new { receiver_end A.field S.mask L.pair result ≡ made_over (A.field arithmetic) (S.mask stream) (L.pair line_code) }
        ensures has_lock { result.lock ≡ new_lock }
    {
        Receiver {
            parts: Parts {
                code: Code::new(arithmetic),
                stream,
                line_code,
            },
            lock: Lock::Locked { bad: 0 },
        }
    }
}

impl<A: Arithmetic, S: Stream, L: LineCode> Receiving for Receiver<A, S, L> {
    ghost end = { receiver_end A.field S.mask L.pair };

    ghost lock = { λ r. r.lock };

    ghost lawful = { λ r. record { field = A.lawful r.parts.code.arithmetic; masks = S.bounded r.parts.stream; pairs = L.distinct r.parts.line_code } };

    fn receive(
        &mut self,
        line: &[i8],
        characters: &mut [u16],
        places: &mut [u16],
    ) -> Result<Report, EndFault> {
        check_lock(self.lock)?;
        let line = array_of(line, 0)?;
        let characters = characters
            .as_mut_array::<450>()
            .ok_or(EndFault::Length { buffer: 1 })?;
        let places = places
            .as_mut_array::<22>()
            .ok_or(EndFault::Length { buffer: 2 })?;
        check_line(line)?;
        match self.parts.repair_line(line) {
            Ok(repaired) => {
                self.lock.note(FrameOutcome::Accepted);
                write_places(&repaired.places, places);
                let told = read_frame(&repaired.word, characters);
                Ok(Report {
                    symbol: repaired.word.symbols[MANAGEMENT],
                    places: repaired.places.len(),
                    invalid: told.invalid,
                    fault: told.fault,
                })
            }
            Err(beyond) => {
                self.lock.note(FrameOutcome::BeyondRepair);
                characters.fill(ERROR);
                places.fill(NO_PLACE);
                Err(EndFault::from(CodeFault::from(beyond)))
            }
        }
    }

    fn rest(&mut self) -> Result<(), EndFault> {
        check_lock(self.lock)?;
        self.parts.pass_masks();
        Ok(())
    }
}
