//! Seeds: the states that a scrambler can start at.
ghost use Rattle.std.specs.Prelude.{◌<◌};

use crate::making::MakingFault;

const LARGEST_STATE: u16 = 32767;

/// A state of 1 to 32,767.
#[derive(Clone, Copy, PartialEq, Eq, Debug)]
pub struct Seed {
    number: u16,
    ghost in_range: { (0 < number) × (number < 32768) },
}

impl Seed {
    /// The seed 1.
    pub const ONE: Seed = Seed { number: 1 };
}

impl TryFrom<u16> for Seed {
    ghost use Rattle.std.specs.Prelude.{◌≡◌, true, false, MatchResult};
    ghost use Rattle.refusal.specs.Refusals.{refusal};
    ghost use Rattle.refusal.specs.declared.kinds.Layer.{Layer};
    ghost use Rattle.lines.specs.Making.{making_refusal};
    ghost use Rattle.lines.specs.Scramblers.{is_state};

    type Error = MakingFault;

    ghost try_from_gives = { λ n r. MatchResult r (λ s. (is_state n ≡ true) × (s.number ≡ n)) (λ e. (is_state n ≡ false) × (making_refusal e ≡ refusal 1 Layer.Making 0)) };

    fn try_from(number: u16) -> Result<Self, MakingFault> {
        match number {
            1..=LARGEST_STATE => Ok(Seed { number }),
            _ => Err(MakingFault::Seed),
        }
    }
}

impl From<Seed> for u16 {
    ghost use Rattle.std.specs.Prelude.{◌≡◌};

    ghost from_gives = { λ seed number. number ≡ seed.number };

    fn from(seed: Seed) -> u16 {
        seed.number
    }
}
