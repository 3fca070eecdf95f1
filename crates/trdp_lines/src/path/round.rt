//! A round of the seats of a path: what waits is written to each, and each is asked in turn.

use crate::admission::refuse;
use crate::connections::Connections;
use crate::path::Path;
use crate::reset_line::end_line;
use crate::rule::Policy;

impl<C: Connections, P: Policy> Path<C, P> {
    ghost use Rattle.std.specs.Prelude.{◌≡◌, ◌+◌, ◌<◌, ◌≤◌, ◌⊎◌, [], ◌∷◌, length};
    ghost use Rattle.std.specs.Prelude.{true, false, is_some, IfSome, IfNone, Some, None};
    ghost use Rattle.trdp_lines.specs.Askings.{AsksPlaces, Listens, NoneFails, TakesSeat};
    ghost use Rattle.trdp_lines.specs.Askings.{TriesAll, TriesOne};
    ghost use Rattle.trdp_lines.specs.Closings.{FindsNothing};
    ghost use Rattle.trdp_base.specs.Reported.{TellsMore};
    ghost use Rattle.trdp_lines.specs.Connections.{Closes};
    ghost use Rattle.trdp_lines.specs.Conversations.{conversation_of, is_done};
    ghost use Rattle.trdp_lines.specs.Hearings.{Decides};
    ghost use Rattle.trdp_lines.specs.Lines.{IsUnended};
    ghost use Rattle.trdp_lines.specs.Orders.{FindsAt, FindsInRound, IsAtIf};
    ghost use Rattle.trdp_lines.specs.Paths.{IsReadyIf};
    ghost use Rattle.trdp_lines.specs.Seats.{has_seat, seat_at, seats_at};
    ghost use Rattle.trdp_lines.specs.Steps.{FindsIf, Goes, end_at};
    ghost use Rattle.trdp_lines.specs.Turns.{KeepsOthers};

    /// Writes to each that has a seat what waits for it.
    pub(crate) fn flush(&mut self)
        ensures goes { Goes P.rule C.calls self.old self.new [] }
        ensures tried { TriesAll (seats_at P.rule)
            (C.calls self.old.connections) (C.calls self.new.connections) self.old.seats }
        ensures unfailed { NoneFails
            (C.calls self.old.connections) (C.calls self.new.connections) }
        ensures waiting { self.new.waiting ≡ self.old.waiting }
        ensures next { self.new.next ≡ self.old.next }
        ensures kept { C.file_number self.new.connections ≡ C.file_number self.old.connections }
    {
        for place in 0..P::rule().seats() {
            self.flush_at(place);
        }
    }

    /// Writes to the one that has the seat at a place what waits for it.
    fn flush_at(&mut self, place: usize)
        requires { place < seats_at P.rule }
        ensures goes { Goes P.rule C.calls self.old self.new [] }
        ensures tried { TriesOne (C.calls self.old.connections) (C.calls self.new.connections)
            (seat_at self.old.seats place) }
        ensures unfailed { NoneFails
            (C.calls self.old.connections) (C.calls self.new.connections) }
        ensures others { KeepsOthers place self.old.seats self.new.seats }
        ensures waiting { self.new.waiting ≡ self.old.waiting }
        ensures next { self.new.next ≡ self.old.next }
        ensures kept { C.file_number self.new.connections ≡ C.file_number self.old.connections }
    {
        let seat = &mut self.seats[place];
        if let Some(number) = seat.number() {
            seat.flush(&mut self.connections, number);
        }
    }

    /// Hands in the next text of the seats, which are all asked in turn.
    pub(crate) fn next_of_all(&mut self, room: &mut [u8]) -> Option<(u64, usize)>
        ensures within { IfSome result (λ found. found.1 ≤ length room.new) }
        ensures finds { FindsIf P.rule C.calls self.old self.new (length room.old) result room.new }
        ensures asked { IfNone result (AsksPlaces 0 (seats_at P.rule)
            (C.calls self.old.connections) (C.calls self.new.connections)
            self.old.seats self.new.seats self.old.waiting) }
        ensures decided { IfNone result (Decides
            (C.calls self.old.connections) (C.calls self.new.connections) self.new.waiting) }
        ensures found { IfSome result (λ found. FindsInRound self.old.next (seats_at P.rule)
            (C.calls self.old.connections) (C.calls self.new.connections)
            self.new.seats self.old.waiting found.0 self.new.next) }
        ensures kept { C.file_number self.new.connections ≡ C.file_number self.old.connections }
    {
        let first = self.next;
        if let Some(found) = self.next_from(first, P::rule().seats(), room) {
            return Some(found);
        }
        self.next_from(0, first, room)
    }

    /// Hands in the next text of the seats from one place to another, which are asked in turn.
    fn next_from(&mut self, first: usize, end: usize, room: &mut [u8]) -> Option<(u64, usize)>
        requires { end ≤ seats_at P.rule }
        ensures within { IfSome result (λ found. found.1 ≤ length room.new) }
        ensures finds { FindsIf P.rule C.calls self.old self.new (length room.old) result room.new }
        ensures asked { IfNone result (AsksPlaces first «end»
            (C.calls self.old.connections) (C.calls self.new.connections)
            self.old.seats self.new.seats self.old.waiting) }
        ensures decided { IfNone result (first < «end» → Decides
            (C.calls self.old.connections) (C.calls self.new.connections) self.new.waiting) }
        ensures unwaited { self.old.waiting ≡ None → self.new.waiting ≡ None }
        ensures found { IfSome result (λ found. FindsAt first «end»
            (C.calls self.old.connections) (C.calls self.new.connections)
            self.old.seats self.new.seats self.old.waiting found.0 self.new.next) }
        ensures kept { C.file_number self.new.connections ≡ C.file_number self.old.connections }
    {
        for place in first..end {
            if let Some(found) = self.ask(place, room) {
                return Some(found);
            }
        }
        None
    }

    /// Hands in the next text of the seat at a place. If none is there, it is read from once
    /// before.
    fn ask(&mut self, place: usize, room: &mut [u8]) -> Option<(u64, usize)>
        requires { place < seats_at P.rule }
        ensures within { IfSome result (λ found. found.1 ≤ length room.new) }
        ensures finds { FindsIf P.rule C.calls self.old self.new (length room.old) result room.new }
        ensures asked { IfNone result (AsksPlaces place (place + 1)
            (C.calls self.old.connections) (C.calls self.new.connections)
            self.old.seats self.new.seats self.old.waiting) }
        ensures decided { IfNone result (Decides
            (C.calls self.old.connections) (C.calls self.new.connections) self.new.waiting) }
        ensures unwaited { self.old.waiting ≡ None → self.new.waiting ≡ None }
        ensures next { self.new.next ≡ place + 1 }
        ensures others { KeepsOthers place self.old.seats self.new.seats }
        ensures whose { IfSome result (λ found. IsAtIf found.0 place self.new.seats) }
        ensures kept { C.file_number self.new.connections ≡ C.file_number self.old.connections }
    {
        self.next = place + 1;
        if let Some(found) = self.next_text(place, room) {
            return Some(found);
        }
        self.listen(place);
        self.next_text(place, room)
    }

    /// Hands in what is left of the seat at a place, without a read. If its connection is over and
    /// all of it handed in, the one that waits has the seat from then on.
    fn next_text(&mut self, place: usize, room: &mut [u8]) -> Option<(u64, usize)>
        requires { place < seats_at P.rule }
        ensures within { IfSome result (λ found. found.1 ≤ length room.new) }
        ensures finds { FindsIf P.rule C.calls self.old self.new (length room.old) result room.new }
        ensures ready { IfNone result
            (IsReadyIf (seat_at self.new.seats place).number (seat_at self.new.seats place)) }
        ensures follows { TakesSeat (C.calls self.old.connections) (C.calls self.new.connections)
            self.old.waiting (seat_at self.old.seats place).number
            (seat_at self.new.seats place).number }
        ensures others { KeepsOthers place self.old.seats self.new.seats }
        ensures unwaited { self.old.waiting ≡ None → self.new.waiting ≡ None }
        ensures next { self.new.next ≡ self.old.next }
        ensures whose { IfSome result (λ found. IsAtIf found.0 place self.new.seats) }
        ensures kept { C.file_number self.new.connections ≡ C.file_number self.old.connections }
    {
        let seat = &mut self.seats[place];
        let number = seat.number()?;
        if let Some(len) = seat.next_line(room) {
            return Some((number, len));
        }
        if !seat.is_done() {
            return None;
        }
        let spoke = seat.spoke();
        self.succeed(place, number);
        end_line(number, P::rule().counts_end(spoke), room)
    }

    /// Closes the connection that has the seat at a place, and this number. The one that waits has
    /// the seat from then on.
    fn succeed(&mut self, place: usize, number: u64)
        requires within { place < seats_at P.rule }
        requires number { (seat_at self.old.seats place).number ≡ Some number }
        requires unended { IsUnended (seat_at self.old.seats place).bytes }
        requires why { (is_done (seat_at self.old.seats place) ≡ true)
            ⊎ ((is_some self.old.waiting ≡ true)
            × ((seat_at self.old.seats place).spoke ≡ false)
            × FindsNothing number (C.calls self.old.connections)) }
        ensures goes { Goes P.rule C.calls self.old self.new
            (end_at P.rule number (seat_at self.old.seats place)) }
        ensures closed { TellsMore (C.calls self.old.connections) (C.calls self.new.connections)
            (Closes number ∷ []) }
        ensures seat { seat_at self.new.seats place ≡ conversation_of self.old.waiting }
        ensures others { KeepsOthers place self.old.seats self.new.seats }
        ensures waiting { self.new.waiting ≡ None }
        ensures gone { has_seat number self.new.seats ≡ false }
        ensures next { self.new.next ≡ self.old.next }
        ensures kept { C.file_number self.new.connections ≡ C.file_number self.old.connections }
    {
        self.connections.close(number);
        let next = self.waiting.take();
        self.seats[place].begin(next);
    }

    /// Reads once from the one that has the seat at a place. If nothing is there, the connection
    /// lives, and what becomes of the one that waits is decided.
    fn listen(&mut self, place: usize)
        requires within { place < seats_at P.rule }
        requires ready { IsReadyIf (seat_at self.old.seats place).number
            (seat_at self.old.seats place) }
        ensures goes { Goes P.rule C.calls self.old self.new [] }
        ensures asked { Listens (C.calls self.old.connections) (C.calls self.new.connections)
            self.old.waiting (seat_at self.new.seats place).number }
        ensures decided { Decides
            (C.calls self.old.connections) (C.calls self.new.connections) self.new.waiting }
        ensures others { KeepsOthers place self.old.seats self.new.seats }
        ensures unwaited { self.old.waiting ≡ None → self.new.waiting ≡ None }
        ensures next { self.new.next ≡ self.old.next }
        ensures kept { C.file_number self.new.connections ≡ C.file_number self.old.connections }
    {
        let seat = &mut self.seats[place];
        let Some(number) = seat.number() else {
            return;
        };
        let came = seat.listen(&mut self.connections, number);
        if came.has_come() {
            self.heard = true;
        } else {
            self.decide(place, number);
        }
    }

    /// Beside an application that lives, the one that waits is sent `busy` and closed. One that
    /// has said no line gives way to it.
    fn decide(&mut self, place: usize, silent: u64)
        requires within { place < seats_at P.rule }
        requires number { (seat_at self.old.seats place).number ≡ Some silent }
        requires ready { IsReadyIf (seat_at self.old.seats place).number
            (seat_at self.old.seats place) }
        requires asked { FindsNothing silent (C.calls self.old.connections) }
        ensures goes { Goes P.rule C.calls self.old self.new [] }
        ensures follows { TakesSeat (C.calls self.old.connections) (C.calls self.new.connections)
            self.old.waiting (seat_at self.old.seats place).number
            (seat_at self.new.seats place).number }
        ensures others { KeepsOthers place self.old.seats self.new.seats }
        ensures decided { self.new.waiting ≡ None }
        ensures next { self.new.next ≡ self.old.next }
        ensures kept { C.file_number self.new.connections ≡ C.file_number self.old.connections }
    {
        let Some(next) = self.waiting else {
            return;
        };
        let lives = self.seats[place].spoke();
        if lives {
            self.waiting = None;
            refuse(&mut self.connections, next);
        } else {
            self.succeed(place, silent);
        }
    }
}
