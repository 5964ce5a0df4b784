//! Streams: unending sequences of nine-bit masks.
ghost use Rattle.std.specs.Prelude.{◌≡◌, ℕ, ◌+◌, ◌<◌};
ghost use Rattle.lines.specs.Scramblers.{silent_mask};
ghost use Rattle.std.proofs.Common.{rules};

/// An unending sequence of masks, worked out from what the stream holds now.
// A mask is a number of nine bits: a type for it would be taken out again at each exclusive-or.
pub trait Stream {
    // The masks still to come: mask 0 is the next one.
    ghost mask: { Self → ℕ → ℕ };

    /// Takes the first mask off the sequence and answers it.
    fn next(&mut self) -> u16
        ensures first_mask { result ≡ mask self.old 0 }
        ensures others_follow { (k : ℕ) → mask self.new k ≡ mask self.old (k + 1) };

    ghost bounded: { (s : Self) (k : ℕ) → mask s k < 512 };
}

/// The stream whose masks are all zero.
#[derive(Clone, Copy, Debug)]
pub struct Silent;

impl Stream for Silent {
    ghost mask = { λ _ k. silent_mask k };

    ghost bounded = { Prim.search rules };

    fn next(&mut self) -> u16 {
        0
    }
}
