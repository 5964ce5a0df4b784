//! Scramblers: streams of masks from a shift register of fifteen bits.
ghost use Rattle.std.specs.Prelude.{◌≡◌, ℕ, ◌%◌, ◌<◌, true, false, reverse, Ok, Err};
ghost use Rattle.refusal.specs.Refusals.{refusal};
ghost use Rattle.refusal.specs.declared.kinds.Layer.{Layer};
ghost use Rattle.lines.specs.Making.{making_refusal};
ghost use Rattle.blocks.specs.Bits.{bits, number};
ghost use Rattle.lines.specs.Scramblers.{is_state, state_after, scrambler_mask};
ghost use Rattle.lines.specs.Moves.{mask_below};

use crate::making::MakingFault;
use crate::role::Role;
use crate::seed::Seed;
use crate::stream::Stream;

// Three bits in the other order. A table, since `reverse_bits` of sixteen took longer; the `turn` of blocks counts them out, which
// is enough for a control and would be done three times for each mask here.
const TURNED: [u16; 8] = [0, 4, 2, 6, 1, 5, 3, 7];

/// The stream of one role's masks, from a state of 1 to 32,767.
#[derive(Clone, Copy)]
pub struct Scrambler {
    role: Role,
    // A number and no `Seed`: each mask shifts it, and the clauses speak of the number.
    state: u16,
    ghost ok: { (0 < state) × (state < 32768) },
}

impl Scrambler {
    /// Starts at a seed of 1 to 32,767.
    // Beside `from_seed`: it takes a caller's number and refuses those that are no seed.
    pub fn new(role: Role, seed: u16) -> Result<Scrambler, MakingFault>
        ensures starts_at_the_seed { elim result [ Ok s ↦ (is_state seed ≡ true) × (s.role ≡ role) × (s.state ≡ seed) | Err fault ↦ (is_state seed ≡ false) × (making_refusal fault ≡ refusal 1 Layer.Making 0) ] }
    {
        let seed = Seed::try_from(seed)?;
        Ok(Scrambler::from_seed(role, seed))
    }

    /// Starts at a seed that was checked before.
    pub fn from_seed(role: Role, seed: Seed) -> Scrambler
        ensures role_and_seed { (result.role ≡ role) × (result.state ≡ seed.number) }
    {
        Scrambler {
            role,
            state: seed.into(),
        }
    }

    // The bits that the next nine moves feed back, the last of them at weight 1. A master feeds
    // back its own new bits after four moves, a slave none before eleven.
    fn fed_back(&self) -> u16
        ensures nine_moves_on { result ≡ state_after self.now.role self.now.state 9 % 512 }
    {
        let state = self.state;
        let high = state >> 6;
        match self.role {
            Role::Master => {
                let taken = high ^ ((state << 5) & 511);
                taken ^ (taken >> 4) ^ (taken >> 8)
            }
            Role::Slave => high ^ ((state >> 2) & 511),
        }
    }
}

// Nine bits in the other order; a number, as masks are (see `Stream`). Three bits at a time: a loop over three would be longer.
fn reversed(drawn: u16) -> u16
    requires { drawn < 512 }
    ensures other_order { result ≡ number (reverse (bits 9 drawn)) }
{
    let first = TURNED[usize::from(drawn & 7)];
    let second = TURNED[usize::from((drawn >> 3) & 7)];
    let third = TURNED[usize::from(drawn >> 6)];
    (first << 6) ^ (second << 3) ^ third
}

impl Stream for Scrambler {
    ghost mask = { λ s k. scrambler_mask s.role s.state k };

    ghost bounded = { λ s k. mask_below s.role s.state k };

    // Each bit of the mask is the weight-1 bit of the state before a move: the one that is
    // there now, and then eight of the nine that are fed back.
    fn next(&mut self) -> u16 {
        let state = self.state;
        let fed = self.fed_back();
        let drawn = ((state & 1) << 8) ^ (fed >> 1);
        self.state = ((state & 63) << 9) ^ fed;
        reversed(drawn)
    }
}
