//! Exchanges: a list of calls carried out on two ends.
ghost use Rattle.std.specs.Prelude.{◌≡◌, vec_len};
ghost use Rattle.codec.specs.Calls.{content};
ghost use Rattle.codec.specs.Ends.{Agree, Later};
ghost use Rattle.codec.specs.Histories.{history, sender_periods, receiver_periods, lock_from};
ghost use Rattle.codec.specs.Law.{EveryCallAnswers, SentComesBack, BeyondRepairExactlyWhenNoneNear, AcceptedIsNearExactlyOne, RefusedExactly};
ghost use Rattle.codec.specs.Turning.{Turned, standing};

use crate::receiver::Receiving;
use crate::request::{Outcome, Request, Turn};
use crate::sender::Sending;

/// Makes one call.
fn ask<X: Sending, Y: Receiving>(sender: &mut X, receiver: &mut Y, request: &mut Request) -> Outcome
    ensures { Turned
        (standing (X.end sender.old) (Y.end receiver.old) (Y.lock receiver.old))
        (content request.old) (content request.new) result
        (standing (X.end sender.new) (Y.end receiver.new) (Y.lock receiver.new)) }
{
    match request {
        Request::Send {
            characters,
            symbol,
            line,
        } => sender.send(characters, *symbol, line).into(),
        Request::SenderRest { line } => sender.rest(line).into(),
        Request::Receive {
            line,
            characters,
            places,
        } => receiver.receive(line, characters, places).into(),
        Request::ReceiverRest => receiver.rest().into(),
    }
}

/// Carries out a list of calls on two ends, in place: each turn is left with its buffers and its outcome.
///
/// The ends may be new or used, and their parts of different kinds. Each end counts its periods from where it stands; for two
/// new ends that is from their making.
// A Vec and no slice: callers know the call so, and its promises speak of the Vec's items.
pub fn exchange<X: Sending, Y: Receiving>(sender: &mut X, receiver: &mut Y, turns: &mut Vec<Turn>)
    ensures every_call_is_answered { vec_len turns.new ≡ vec_len turns.old }
    ensures calls_answer_by_their_rules { EveryCallAnswers (X.end sender.old) (Y.end receiver.old) (Y.lock receiver.old) (history turns.old.items turns.new.items) }
    ensures refused_exactly_where_stated { RefusedExactly (Y.end receiver.old) (Y.lock receiver.old) (history turns.old.items turns.new.items) }
    ensures sent_comes_back { Agree (X.end sender.old) (Y.end receiver.old) → SentComesBack (history turns.old.items turns.new.items) }
    ensures beyond_repair_exactly_when_none_near { BeyondRepairExactlyWhenNoneNear (Y.end receiver.old) (history turns.old.items turns.new.items) }
    ensures accepted_is_near_exactly_one { AcceptedIsNearExactlyOne (Y.end receiver.old) (history turns.old.items turns.new.items) }
    ensures sender_stands_later { Later (sender_periods (history turns.old.items turns.new.items)) (X.end sender.old) (X.end sender.new) }
    ensures receiver_stands_later { Later (receiver_periods (history turns.old.items turns.new.items)) (Y.end receiver.old) (Y.end receiver.new) }
    ensures lock_stands { Y.lock receiver.new ≡ lock_from (Y.lock receiver.old) (history turns.old.items turns.new.items) }
{
    for turn in turns.iter_mut() {
        turn.outcome = ask(sender, receiver, &mut turn.request);
    }
}
