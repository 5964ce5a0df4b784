//! Two ends whose arithmetics are of different kinds.
ghost use Rattle.codec.specs.Histories.{history};
ghost use Rattle.codec.specs.Law.{SentComesBack};

use crate::frames::master;
use arithmetic::{Shifting, Tabled};
use codec::{Receiver, Ring, Sender, Turn, exchange};

/// Carries out calls on a sender that shifts and a receiver that looks up: they agree, so what was sent comes back.
pub fn exchange_of_two_kinds(turns: &mut Vec<Turn>)
    ensures sent_comes_back { SentComesBack (history turns.old.items turns.new.items) }
{
    let stream = master();
    let mut sender = Sender::new(Shifting, stream, Ring);
    let mut receiver = Receiver::new(Tabled, stream, Ring);
    exchange(&mut sender, &mut receiver, turns);
}
