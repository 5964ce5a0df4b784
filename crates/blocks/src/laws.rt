//! What is true of every block, as facts that the check asks for.
ghost use Rattle.blocks.specs.Worked.{OneReading, OneFirst, NeverBoth};

/// Does nothing: its contract holds what is true of every block.
pub fn block_laws()
    ensures encodes_one_ten_at_most { OneReading }
    ensures one_first_invalid_field { OneFirst }
    ensures never_encoded_and_invalid { NeverBoth }
{}
