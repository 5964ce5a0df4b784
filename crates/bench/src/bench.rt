//! The bench: two ends and a line, driven by records.
ghost use Rattle.std.specs.Prelude.{◌≡◌, ◌+◌, ◌%◌, ◌^◌, IfSome, IfNone, IfOk, OnOk, MatchOption, string_bytes};
ghost use Rattle.bench.specs.Benches.{standing, stands_new, Carries, RefusedChangesNothing, answered as told_of};
ghost use Rattle.bench.specs.Files.{Steps, NoRecord, Ran, Ended, Misfit, NoMisfit, cut as said_of_cut};

use crate::faults::BenchFault;
use crate::head::read_head;
use crate::link::{Link, Reply};
use crate::printed::{Answer, Printed, print_line};
use crate::record::{Record, read_record};
use arithmetic::Arithmetic;
use codec::{Receiver, Sender};
use lines::{LineCode, Stream};
use refusal::Fault;
use std::fmt;

/// Two ends over one line, and how many records they were driven by.
#[derive(Drop)]
pub struct Bench<A: Arithmetic, S, L> {
    pub(crate) link: Link<Sender<A, S, L>, Receiver<A, S, L>>,
    /// The number of the next record, modulo 2^64.
    pub(crate) number: usize,
}

/// What is printed of a record, and how many octets it has.
#[derive(Clone, Copy, PartialEq, Eq, Debug)]
pub struct Step {
    pub printed: Printed,
    pub taken: usize,
}

/// What is told of a record: a fault by its refusal.
// A function: both types are the library's Result, between which no From can be written here. It is the one such conversion.
fn answered(reply: Reply) -> Answer
    ensures { result ≡ told_of reply }
{
    reply.map_err(Fault::refusal)
}

// Each clause says where a bench stands, as `at`: see Link.
impl<A: Arithmetic, S: Stream, L: LineCode> Bench<A, S, L> {
    /// A bench over two ends. Its line is all zeros.
    pub fn new(sender: Sender<A, S, L>, receiver: Receiver<A, S, L>) -> Bench<A, S, L>
        ensures stands_new { standing A.field S.mask L.pair result ≡ stands_new A.field S.mask L.pair sender receiver }
        ensures counts_from_0 { result.number ≡ 0 }
    {
        Bench {
            link: Link {
                sender,
                receiver,
                line: [0; 2700],
                characters: [0; 450],
                places: [0; 22],
            },
            number: 0,
        }
    }

    fn carry_out(&mut self, asked: Record<'_>) -> Printed
        ensures carries { let at = standing A.field S.mask L.pair in Carries (at self.old) self.old.number asked.entry.head asked.entry.payload.now result.answer (at self.new) }
        ensures kind { result.kind ≡ asked.entry.head.kind }
        ensures next_number { self.new.number ≡ (self.old.number + 1) % 2 ^ 64 }
    {
        let reply = self.link.answer(asked, self.number);
        self.number = self.number.wrapping_add(1);
        Printed {
            kind: asked.head.kind,
            answer: answered(reply),
        }
    }

    /// Carries out the record with which the octets begin; does nothing where they hold no whole record.
    pub fn step(&mut self, octets: &[u8]) -> Option<Step>
        ensures first_record_or_none { let at = standing A.field S.mask L.pair in MatchOption result (NoRecord octets.now) (λ step. Steps (at self.old) self.old.number octets.now step (at self.new) self.new.number) }
        ensures refused_record_changes_nothing { let at = standing A.field S.mask L.pair in IfSome result (λ step. RefusedChangesNothing (at self.old) step.printed.answer (at self.new)) }
        ensures nothing_for_none { IfNone result (self.new ≡ self.old) }
    {
        let record = read_record(octets)?;
        let printed = self.carry_out(record);
        let taken = 4 + usize::from(record.head.length);
        Some(Step { printed, taken })
    }

    /// Carries out the whole records with which the octets begin, and adds a line of each to `out`.
    /// Answers how many octets they have.
    pub fn run(&mut self, octets: &[u8], out: &mut String) -> Result<usize, fmt::Error>
        ensures all_whole_records { let at = standing A.field S.mask L.pair in IfOk result (λ taken. Ran (at self.old) self.old.number octets.now (string_bytes out.old) taken (at self.new) self.new.number (string_bytes out.new)) }
    {
        let mut taken = 0;
        // Goes until no whole record is left: each says by its own length where the next one begins.
        while let Some(step) = self.step(&octets[taken..]) {
            print_line(step.printed, out)?;
            taken += step.taken;
        }
        Ok(taken)
    }

    /// What is said of the head with which octets begin, where it fits no kind.
    fn misfit(&self, octets: &[u8]) -> Option<Printed>
        ensures { MatchOption result (NoMisfit octets.now) (λ printed. Misfit self.now.number octets.now printed) }
    {
        let head = read_head(octets)?;
        let fault = head.judge(self.number).err()?;
        Some(Printed {
            kind: head.kind,
            answer: Err(fault.refusal()),
        })
    }

    /// What is said of a record that is cut.
    fn cut(&self) -> Printed
        ensures { result ≡ said_of_cut self.now.number }
    {
        let fault = BenchFault::CutRecord {
            record: self.number,
        };
        Printed {
            kind: 0,
            answer: Err(fault.refusal()),
        }
    }

    /// Adds to `out` what is to be said of the octets that are left when a file ends.
    pub fn end(&self, rest: &[u8], out: &mut String) -> fmt::Result
        ensures cut_record_or_none { OnOk result (Ended self.now.number rest.now (string_bytes out.old) (string_bytes out.new)) }
    {
        if rest.is_empty() {
            return Ok(());
        }
        if let Some(printed) = self.misfit(rest) {
            print_line(printed, out)?;
        }
        print_line(self.cut(), out)
    }
}
