//! Faults: why a part refuses, as a caller is told.
ghost use Rattle.std.specs.Prelude.{◌≡◌};
ghost use Rattle.refusal.specs.declared.kinds.Refusal.{Refusal};

use crate::kinds::Refusal;

/// Why a call is refused, in the terms of the part that refuses.
// A trait of its own and no From: callers and promises know the method by its name.
pub trait Fault {
    // The number, layer and place of each fault.
    ghost told: { Self → Refusal };

    /// The refusal that a caller is told.
    fn refusal(self) -> Refusal
        ensures number_layer_and_place { result ≡ told self };
}
