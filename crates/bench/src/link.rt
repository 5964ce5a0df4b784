//! Two ends, and the line between them.
ghost use Rattle.std.specs.Prelude.{◌≡◌, length};
ghost use Rattle.bench.specs.Benches.{link_standing, Sends, Hits, Receives, Rests, Carries, answered};

use crate::faults::BenchFault;
use crate::head::Kind;
use crate::payload::{read_hit, read_send};
use crate::record::Record;
use codec::{Receiving, Report, Sending};

/// What became of a record, as an answer says it, with the fault itself in place of its refusal.
// Beside `Answer`, which is public: one alias over the error would name the error at each use.
pub(crate) type Reply = Result<Option<Report>, BenchFault>;

/// A sender and a receiver over one line, with buffers for what is sent and received.
#[derive(Drop)]
pub(crate) struct Link<X, Y> {
    pub(crate) sender: X,
    pub(crate) receiver: Y,
    // Numbers, of the sizes that the calls of the ends take.
    pub(crate) line: [i8; 2700],
    pub(crate) characters: [u16; 450],
    pub(crate) places: [u16; 22],
}

// Each clause says where a link stands, as `at`: an `impl Model`, which would say it once, was tried; it needs Stream and LineCode
// as bounds of the public type Bench.
impl<X: Sending, Y: Receiving> Link<X, Y> {
    // A length, and no `&[u8; 902]`: taking an array of a record's payload would leave a branch that no call reaches.
    fn send(&mut self, payload: &[u8], number: usize) -> Reply
        requires full { length payload.now ≡ 902 }
        ensures { let at = link_standing X.end Y.end Y.lock in Sends (at self.old) payload.now (answered result) (at self.new) }
    {
        let symbol = read_send(payload, number, &mut self.characters)?;
        self.sender.send(&self.characters, symbol, &mut self.line)?;
        Ok(None)
    }

    #[tactic(auto, using(crate::specs::Benches::in_range, crate::specs::Benches::out_of_range, crate::proofs::Standing::unchanged, crate::proofs::Standing::told_as))]
    fn hit(&mut self, payload: &[u8], number: usize) -> Reply
        ensures { let at = link_standing X.end Y.end Y.lock in Hits (at self.old) number payload.now (answered result) (at self.new) }
    {
        let hit = read_hit(payload, number)?;
        self.line[hit.place] = hit.symbol;
        Ok(None)
    }

    fn receive(&mut self) -> Reply
        ensures { let at = link_standing X.end Y.end Y.lock in Receives (at self.old) (answered result) (at self.new) }
    {
        let report = self
            .receiver
            .receive(&self.line, &mut self.characters, &mut self.places)?;
        Ok(Some(report))
    }

    fn rest(&mut self) -> Reply
        ensures { let at = link_standing X.end Y.end Y.lock in Rests (at self.old) (answered result) (at self.new) }
    {
        self.receiver.rest()?;
        self.sender.rest(&mut self.line)?;
        Ok(None)
    }

    /// Does what the record of this number asks for.
    // The number goes beside the record and its payload: it is not read from octets, and the public readers take it so.
    #[tactic(auto, using(crate::specs::Benches::sends, crate::specs::Benches::hits, crate::specs::Benches::receives, crate::specs::Benches::rests, crate::specs::Benches::bad_head, crate::proofs::Standing::unchanged, crate::proofs::Standing::told_as))]
    pub(crate) fn answer(&mut self, asked: Record<'_>, number: usize) -> Reply
        ensures { let at = link_standing X.end Y.end Y.lock in Carries (at self.old) number asked.entry.head asked.entry.payload.now (answered result) (at self.new) }
    {
        match asked.head.judge(number)? {
            Kind::Send => self.send(asked.payload, number),
            Kind::Hit => self.hit(asked.payload, number),
            Kind::Receive => self.receive(),
            Kind::Rest => self.rest(),
        }
    }
}
