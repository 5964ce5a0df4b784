//! Sending: frames and rests.
ghost use Rattle.std.specs.Prelude.{◌≡◌};
ghost use Rattle.codec.specs.Calls.{Answers, send as sent, sender_rest, done, periods_of, sender_end};
ghost use Rattle.codec.specs.Ends.{End, made_over, Later};
ghost use Rattle.codec.specs.Locks.{new_lock};

use crate::checks::{array_of, check_frame};
use crate::ends::{Parts, Sender};
use crate::faults::EndFault;
use arithmetic::Arithmetic;
use code::Code;
use lines::{LineCode, Stream};

/// An end that sends.
pub trait Sending {
    // What the end is made over, as it stands now: its masks are those still to come. `Receiving` has the like: a trait above both would be
    // one name more and an impl more for each end, and shorten no clause.
    ghost end: { Self → End };

    // Over numbers, as callers have them and the refusals name them. That the end stands later is a promise of each call.
    /// Writes the line frame of 450 characters and a management symbol.
    fn send(&mut self, characters: &[u16], symbol: u16, line: &mut [i8]) -> Result<(), EndFault>
        ensures answers_by_its_rule { Answers (end self.old) 0 new_lock (sent characters.now symbol line.old) (sent characters.now symbol line.new) (done result) }
        ensures stands_later { Later (periods_of (done result)) (end self.old) (end self.new) };

    /// Writes zeros, and uses up a period's masks.
    fn rest(&mut self, line: &mut [i8]) -> Result<(), EndFault>
        ensures answers_by_its_rule { Answers (end self.old) 0 new_lock (sender_rest line.old) (sender_rest line.new) (done result) }
        ensures stands_later { Later (periods_of (done result)) (end self.old) (end self.new) };
}

impl<A: Arithmetic, S: Stream, L: LineCode> Sender<A, S, L> {
    /// A new sender over an arithmetic, a stream and a line code.
    pub fn new(arithmetic: A, stream: S, line_code: L) -> Sender<A, S, L>
        ensures stands_new { sender_end A.field S.mask L.pair result ≡ made_over (A.field arithmetic) (S.mask stream) (L.pair line_code) }
    {
        Sender {
            parts: Parts {
                code: Code::new(arithmetic),
                stream,
                line_code,
            },
        }
    }
}

impl<A: Arithmetic, S: Stream, L: LineCode> Sending for Sender<A, S, L> {
    ghost end = { sender_end A.field S.mask L.pair };

    fn send(&mut self, characters: &[u16], symbol: u16, line: &mut [i8]) -> Result<(), EndFault> {
        let numbers = array_of(characters, 0)?;
        let line = line
            .as_mut_array::<2700>()
            .ok_or(EndFault::Length { buffer: 1 })?;
        let frame = check_frame(numbers, symbol)?;
        let word = frame.codeword(&self.parts.code);
        self.parts.write_line(&word, line);
        Ok(())
    }

    fn rest(&mut self, line: &mut [i8]) -> Result<(), EndFault> {
        let line = line
            .as_mut_array::<2700>()
            .ok_or(EndFault::Length { buffer: 0 })?;
        line.fill(0);
        self.parts.pass_masks();
        Ok(())
    }
}
