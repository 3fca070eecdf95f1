//! The seats at a path.

ghost use Rattle.std.specs.Prelude.{◌≡◌, ◌<◌, ℕ, length, replicate, Some, None};
ghost use Rattle.std.specs.Prelude.{IfOk, MatchOption};
ghost use Rattle.trdp_lines.specs.Seats.{free_seat, seat_at};
ghost use Rattle.trdp_lines.specs.Turns.{HasNoPlace, IsPlaceOf};

use crate::conversation::Conversation;
use std::alloc::{AllocError, Global};

/// So many seats, each of no connection.
///
/// # Errors
/// [`AllocError`] if there is no memory for them.
pub(crate) fn free_seats_in(alloc: Global, count: usize) -> Result<Vec<Conversation>, AllocError>
    ensures { IfOk result (λ seats. seats.items ≡ replicate count free_seat) }
{
    let mut seats = Vec::with_capacity(alloc, count)?;
    for _ in 0..count {
        seats.push(Conversation::new(alloc)?)?;
    }
    Ok(seats)
}

/// The place of the seat of this connection, or of a free one, if there is one.
pub(crate) fn place_of(seats: &[Conversation], number: Option<u64>) -> Option<usize>
    ensures { MatchOption result (HasNoPlace number seats.now)
        (λ place. IsPlaceOf number seats.now place) }
{
    for (place, seat) in seats.iter().enumerate() {
        if seat.number() == number {
            return Some(place);
        }
    }
    None
}
