//! The head of a record: its length and its kind.
ghost use Rattle.std.specs.Prelude.{◌≡◌, ◌<◌, [], ◌∷◌, ◌++◌, length, take, MatchOption, MatchResult};
ghost use Rattle.bench.specs.Records.{two_octets, FitsKind, FitsNoKind};

use crate::faults::BenchFault;

/// What a record asks for.
#[derive(Clone, Copy, PartialEq, Eq, Debug)]
pub enum Kind {
    /// Sends a frame onto the line.
    Send,
    /// Changes one symbol of the line.
    Hit,
    /// Receives the line.
    Receive,
    /// Rests both ends.
    Rest,
}

/// The first four octets of a record: the length of its payload, and the number of its kind.
#[derive(Clone, Copy, PartialEq, Eq, Debug)]
pub struct Head {
    pub length: u16,
    // A number and no Kind: a head is what the file says, and is printed also where no kind has its number.
    pub kind: u16,
}

/// The number of two octets, the first at weight 1.
// A function: three readers need the octets told from the number, and `from_le_bytes` tells the number from the octets.
pub(crate) fn two(low: u8, high: u8) -> u16
    ensures { two_octets result ≡ low ∷ high ∷ [] }
{
    u16::from_le_bytes([low, high])
}

/// Reads the head with which octets begin; there is none in fewer than four.
pub fn read_head(octets: &[u8]) -> Option<Head>
    ensures the_first_four { MatchOption result (length octets.now < 4) (λ h. take 4 octets.now ≡ two_octets h.length ++ two_octets h.kind) }
{
    let [a, b, c, d, ..] = octets else {
        return None;
    };
    Some(Head {
        length: two(*a, *b),
        kind: two(*c, *d),
    })
}

impl Head {
    /// The kind that the head asks for, with that kind's length; `number` is the record's number.
    // The clauses of read_send and read_hit name this refusal too: each of the three public readers states its refusal whole.
    pub fn judge(self, number: usize) -> Result<Kind, BenchFault>
        ensures kind_with_its_length_or_refused { MatchResult result (λ k. FitsKind self k) (λ e. FitsNoKind self × (e ≡ BenchFault.BadRecord number)) }
    {
        // A row for each kind: its number and the length of its payload, which a TryFrom of the number would take apart.
        match (self.kind, self.length) {
            (1, 902) => Ok(Kind::Send),
            (2, 3) => Ok(Kind::Hit),
            (3, 0) => Ok(Kind::Receive),
            (4, 0) => Ok(Kind::Rest),
            _ => Err(BenchFault::BadRecord { record: number }),
        }
    }
}
