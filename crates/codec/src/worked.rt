//! Values worked out by hand from the rules, as facts that the check asks for.
ghost use Rattle.codec.specs.Worked.{WorkedValues};

/// Does nothing: its contract holds the worked values of blocks, arithmetic and masks.
pub fn worked_values()
    ensures worked_values_hold { WorkedValues }
{}
