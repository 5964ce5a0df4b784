//! The layers, and a refusal.
ghost use Rattle.std.specs.Prelude.{◌≡◌};
ghost use Rattle.refusal.specs.Refusals.{refusal};

use std::fmt;

/// The part of the codec that refuses.
#[derive(Clone, Copy, PartialEq, Eq, Debug)]
pub enum Layer {
    Making,
    End,
    Block,
    Line,
    Code,
    Cycle,
    Bench,
}

/// What a caller is told: the refusal's number, the layer and the place within it.
#[derive(Clone, Copy, PartialEq, Eq, Debug)]
pub struct Refusal {
    // A number, since callers and recordings know a refusal by it. Within the layers faults are enums; this is what is told of them,
    // and each number stands where its fault is told.
    pub number: u8,
    pub layer: Layer,
    // 0 where a fault has no place, and no Option: callers and recordings know a refusal by number, layer and place.
    pub place: usize,
}

impl Refusal {
    /// The refusal with this number, in this layer, at this place.
    pub fn new(number: u8, layer: Layer, place: usize) -> Refusal
        ensures says_just_that { result ≡ refusal number layer place }
    {
        Refusal {
            number,
            layer,
            place,
        }
    }
}

// By hand, here and below: `thiserror` would print the same, without a contract for what is printed.
impl fmt::Display for Layer {
    ghost use Rattle.std.specs.Prelude.{Some};
    ghost use Rattle.refusal.specs.Texts.{layer_text};

    ghost output = { λ layer. Some (layer_text layer) };

    fn fmt<W: fmt::Write>(&self, f: &mut fmt::Formatter<W>) -> fmt::Result {
        f.write_str(match self {
            Layer::Making => "making",
            Layer::End => "end",
            Layer::Block => "block",
            Layer::Line => "line",
            Layer::Code => "code",
            Layer::Cycle => "cycle",
            Layer::Bench => "bench",
        })
    }
}

impl fmt::Display for Refusal {
    ghost use Rattle.std.specs.Prelude.{Some};
    ghost use Rattle.refusal.specs.Texts.{refusal_text};

    ghost output = { λ r. Some (refusal_text r) };

    fn fmt<W: fmt::Write>(&self, f: &mut fmt::Formatter<W>) -> fmt::Result {
        write!(
            f,
            "refused with {}, layer {}, place {}",
            self.number, self.layer, self.place
        )
    }
}
