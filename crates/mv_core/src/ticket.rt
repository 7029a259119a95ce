//! Tickets.

ghost use Rattle.std.specs.Prelude.{IfNone, IfSome};
ghost use Rattle.mv_core.specs.AttemptSlots.{IsNowhere, IsAttemptAt};

use mv_shards::Attempt;

/// Names an attempt, by the number of its call, from 1, and its timestamp. Anybody can make one: a store knows which
/// attempts are live.
#[derive(Clone, Copy, Debug, PartialEq, Eq)]
pub struct Ticket {
    /// The number of the call, from 1.
    pub number: u32,
    /// The timestamp of the attempt.
    pub timestamp: u64,
}

/// The index of a ticket's attempt.
pub(crate) fn index_of(attempts: &[Option<Attempt>], ticket: &Ticket) -> Option<usize>
    ensures attempt { IfSome result
        (λ index. IsAttemptAt attempts.now ticket.now.number ticket.now.timestamp index) }
    ensures nowhere { IfNone result
        (IsNowhere attempts.now ticket.now.number ticket.now.timestamp) }
{
    if ticket.number == 0 {
        return None;
    }
    let index = ticket.number as usize - 1;
    if index >= attempts.len() {
        return None;
    }
    match &attempts[index] {
        Some(attempt) => {
            if attempt.timestamp() == ticket.timestamp {
                Some(index)
            } else {
                None
            }
        }
        None => None,
    }
}
