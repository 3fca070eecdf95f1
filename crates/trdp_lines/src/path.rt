//! The connections at a path: those of one application at a time, or of up to four operators.

mod round;

use crate::admission::{LAST_NUMBER, refuse};
use crate::connections::{Accepted, Connections};
use crate::conversation::Conversation;
use crate::path_fault::{AcceptFault, LostText};
use crate::rule::{ForApplication, ForOperators, Policy, Rule};
use crate::seats::{free_seats_in, place_of};
use std::alloc::Global;
use std::marker::{Model, PhantomData};

/// The connections at the path of a control port, of which one is the application: from its first
/// line on until it ends. What it says is handed in line by line, and its end as the line `reset`.
pub type ControlPath<C> = Path<C, ForApplication>;

/// The connections at the path of the operator's port, up to four at once. What each says is handed
/// in line by line, and each is answered at its own; its end hands in nothing.
pub type OperatorPath<C> = Path<C, ForOperators>;

/// The connections at a path, with the rule `P`: [`ControlPath`] or [`OperatorPath`].
#[derive(Drop)]
pub struct Path<C: Connections, P: Policy> {
    /// The connections.
    connections: C,
    /// The seats, each of a connection, or free.
    seats: Vec<Conversation>,
    /// The number of the one that waits for a seat, unread until it is known whether the one that
    /// has it lives; None if none waits.
    waiting: Option<u64>,
    /// How many connections came, which is the number of the latest.
    came: u64,
    /// Where the next take begins: how many seats come before the first that it asks.
    next: usize,
    /// Whether something was heard at a take since this was asked the last time.
    heard: bool,
    /// The rule.
    policy: PhantomData<P>,
}

impl<C: Connections, P: Policy> Model for Path<C, P> {
    ghost use Rattle.trdp_lines.specs.Seatings.{IsPathFrom};
    ghost use Rattle.trdp_lines.specs.Seats.{PathState};

    ghost Value = { PathState C };

    ghost view = { λ p. record {
      connections = p.connections;
      seats = p.seats.items;
      waiting = p.waiting;
      came = p.came;
      next = p.next;
      heard = p.heard;
    } };

    ghost invariant = { λ p. IsPathFrom P.rule (C.calls p.connections) p.seats.items p.waiting
        p.came p.next };
}

impl<C: Connections, P: Policy> Path<C, P> {
    ghost use Rattle.std.specs.Prelude.{◌≡◌, ◌≤◌, [], length, take, false, is_err, is_some, ◌||◌};
    ghost use Rattle.std.specs.Prelude.{IfOk, IfErr, IfSome, None, ◌+◌, ◌<◌};
    ghost use Rattle.trdp_lines.specs.Askings.{AsksAll, AsksNext, IfNothing, MayCome, ReadsAll};
    ghost use Rattle.trdp_lines.specs.Askings.{AsksFor, TriesAll};
    ghost use Rattle.trdp_lines.specs.Closings.{AreThere};
    ghost use Rattle.trdp_lines.specs.Comings.{AcceptsAtMostOne};
    ghost use Rattle.trdp_lines.specs.Fates.{KeepTaken};
    ghost use Rattle.trdp_lines.specs.Hearings.{Decides, Hears, IsQuiet, has_found, waits_at};
    ghost use Rattle.trdp_lines.specs.Orders.{IsInTurn};
    ghost use Rattle.trdp_lines.specs.Paths.{last_connection_number};
    ghost use Rattle.trdp_lines.specs.Said.{reset_line};
    ghost use Rattle.trdp_lines.specs.Seatings.{IsPath};
    ghost use Rattle.trdp_lines.specs.Seats.{HandsInTexts, NothingLeft, StaysLeft, is_seated};
    ghost use Rattle.trdp_lines.specs.Seats.{has_seat, new_path, seats_at};
    ghost use Rattle.trdp_lines.specs.Steps.{AreServed, HandsInNext, SaysToSeat};
    ghost use Rattle.trdp_lines.specs.declared.rule.Rule.TheVariants.{Operators};

    /// The connections at a path, of which none was accepted yet. All memory that they ever need is
    /// allocated here.
    ///
    /// # Errors
    /// The connections come back if there is no memory.
    pub fn new(alloc: Global, connections: C) -> Result<Path<C, P>, C>
        requires { IfSome (C.calls connections) (λ calls. calls ≡ []) }
        ensures made { IfOk result (λ path. path ≡ new_path P.rule connections) }
        ensures nothing_left { IfOk result (λ path. NothingLeft P.rule path.seats) }
        ensures returned { IfErr result (λ back. back ≡ connections) }
    {
        match free_seats_in(alloc, P::rule().seats()) {
            Ok(seats) => Ok(Path {
                connections,
                seats,
                waiting: None,
                came: 0,
                next: 0,
                heard: false,
                policy: PhantomData,
            }),
            Err(_) => Err(connections),
        }
    }

    /// Its connections.
    pub fn connections(&self) -> &C
        ensures { result.now ≡ self.now.connections }
    {
        &self.connections
    }

    /// Whether the connection of that number has a seat. It has none once its end was returned.
    pub fn speaks(&self, number: u64) -> bool
        ensures { result ≡ has_seat number self.now.seats }
    {
        place_of(&self.seats, Some(number)).is_some()
    }

    /// Whether something was heard at a take since this was asked the last time: a connection
    /// came, or bytes of one, or its end; a line was handed in; or a connection waited.
    pub fn has_heard(&mut self) -> bool
        ensures heard { result ≡ self.old.heard }
        ensures forgotten { self.new ≡ record self.old { heard = false } }
    {
        let heard = self.heard;
        self.heard = false;
        heard
    }

    /// Hands in the next line of a connection without its end, or the line `reset` after the last
    /// one of an application that has ended. It is put at the front of the room, cut to it; the
    /// result is the number of the connection and how many bytes the line has there. None says that
    /// no whole line is left of what was read.
    ///
    /// It accepts one connection at most, reads once at most from each that has a seat, and writes
    /// to each what waits for it. It begins after the one that was asked last. If a take hears
    /// nothing, no connection came, and nothing came from one. If no call of it brings anything and
    /// it finds nothing, no connection waits after it.
    ///
    /// # Errors
    /// [`AcceptFault`] if nothing is there and the system refuses the next connection.
    pub fn take(&mut self, room: &mut [u8]) -> Result<Option<(u64, usize)>, AcceptFault>
        ensures within { IfOk result (λ found. IfSome found (λ f. f.1 ≤ length room.new)) }
        ensures next { IfOk result (λ found.
            HandsInNext P.rule C.calls self.old self.new (length room.old) found room.new) }
        ensures refused { IfErr result (λ _.
            HandsInNext P.rule C.calls self.old self.new (length room.old) None room.new) }
        ensures gone { IfOk result (λ found. IfSome found (λ f. has_seat f.0 self.new.seats ≡ false
            → take f.1 room.new ≡ take (length room.old) reset_line)) }
        ensures numbers { IfOk result (λ found. IfSome found (λ f. f.0 ≤ self.new.came)) }
        ensures turn { IfOk result (λ found. IfSome found (λ f.
            IsInTurn P.rule C.calls self.old self.new f.0)) }
        ensures came { AcceptsAtMostOne
            (C.calls self.old.connections) (C.calls self.new.connections)
            self.old.came self.new.came }
        ensures served { AreServed P.rule C.calls self.old self.new }
        ensures there { AreThere (C.calls self.new.connections) (λ n. is_seated n self.new) }
        ensures tried { TriesAll (seats_at P.rule)
            (C.calls self.old.connections) (C.calls self.new.connections) self.old.seats }
        ensures asked { IfNothing result (AsksAll P.rule C.calls self.old self.new) }
        ensures decided { IfNothing result (λ _. Decides
            (C.calls self.old.connections) (C.calls self.new.connections) self.new.waiting) }
        ensures heard { Hears (C.calls self.old.connections) (C.calls self.new.connections)
            (has_found result || self.old.heard || waits_at P.rule self.old.waiting)
            self.new.heard }
        ensures quiet { self.new.heard ≡ false → IsQuiet
            (C.calls self.old.connections) (C.calls self.new.connections)
            self.old.heard (waits_at P.rule self.old.waiting) (has_found result) }
        ensures read { self.new.heard ≡ false → ReadsAll
            (C.calls self.old.connections) (C.calls self.new.connections) self.new.seats }
        ensures kept { C.file_number self.new.connections ≡ C.file_number self.old.connections }
        ensures accepts { MayCome P.rule self.old.waiting
            → self.old.came < last_connection_number → AsksFor (self.old.came + 1)
            (C.calls self.old.connections) (C.calls self.new.connections) }
    {
        // One that waits is decided in this take, or speaks from then on: more may come after it.
        self.heard |= self.waiting.is_some();
        let admitted = self.admit();
        self.flush();
        match self.next_of_all(room) {
            Some(found) => {
                self.heard = true;
                self.sound();
                Ok(Some(found))
            }
            None => {
                self.sound();
                match admitted {
                    Ok(()) => Ok(None),
                    Err(fault) => Err(fault),
                }
            }
        }
    }

    /// Says a text to the connection of that number, if it has a seat: it waits until the other
    /// side takes it. To any other it says nothing.
    ///
    /// # Errors
    /// [`LostText`] if it finds no room after what waits already: it is dropped whole. A line
    /// `lost N` says in its place how many were, as soon as it finds room.
    pub fn give(&mut self, number: u64, text: &[u8]) -> Result<(), LostText>
        ensures says { SaysToSeat (C.calls self.old.connections) (C.calls self.new.connections)
            (has_seat number self.old.seats) number text.now self.old.seats self.new.seats result }
        ensures waiting { self.new.waiting ≡ self.old.waiting }
        ensures came { self.new.came ≡ self.old.came }
        ensures next { self.new.next ≡ self.old.next }
        ensures heard { self.new.heard ≡ self.old.heard }
        ensures left { StaysLeft P.rule self.old.seats self.new.seats }
        ensures hands_in { HandsInTexts P.rule
            (C.calls self.old.connections) (C.calls self.new.connections)
            self.old.seats self.new.seats [] }
        ensures kept { C.file_number self.new.connections ≡ C.file_number self.old.connections }
    {
        let Some(place) = place_of(&self.seats, Some(number)) else {
            return Ok(());
        };
        let seat = &mut self.seats[place];
        if seat.say(&mut self.connections, number, text) {
            Ok(())
        } else {
            Err(LostText)
        }
    }

    /// What holds of the path at any time: a law for the other functions, which does nothing when
    /// it runs.
    fn sound(&self)
        ensures { IsPath P.rule (C.calls self.now.connections) self.now.seats self.now.waiting
            self.now.came }
    {
        let _ = &self.seats;
    }

    /// Accepts the next connection, if none waits. It gets a free seat. If none is free, an
    /// application's connection waits, and an operator's is sent `busy` and closed.
    ///
    /// # Errors
    /// [`AcceptFault`] if the system refuses it.
    fn admit(&mut self) -> Result<(), AcceptFault>
        ensures hands_in { HandsInTexts P.rule
            (C.calls self.old.connections) (C.calls self.new.connections)
            self.old.seats self.new.seats [] }
        ensures came { AcceptsAtMostOne
            (C.calls self.old.connections) (C.calls self.new.connections)
            self.old.came self.new.came }
        ensures served { AreServed P.rule C.calls self.old self.new }
        ensures taken { KeepTaken self.old.seats self.new.seats }
        ensures asked { AsksNext (C.calls self.old.connections) (C.calls self.new.connections)
            (MayCome P.rule self.old.waiting) self.old.came (is_err result) }
        ensures heard { Hears (C.calls self.old.connections) (C.calls self.new.connections)
            self.old.heard self.new.heard }
        ensures waiting { self.new.heard ≡ false → self.new.waiting ≡ self.old.waiting }
        ensures waits { waits_at P.rule self.old.waiting ≡ is_some self.old.waiting }
        ensures alone { P.rule ≡ Operators → self.new.waiting ≡ None }
        ensures next { self.new.next ≡ self.old.next }
        ensures kept { C.file_number self.new.connections ≡ C.file_number self.old.connections }
    {
        if self.waiting.is_some() || self.came >= LAST_NUMBER {
            return Ok(());
        }
        let number = self.came + 1;
        match self.connections.accept(number) {
            Accepted::Nothing => Ok(()),
            Accepted::Failed => Err(AcceptFault),
            Accepted::Came => {
                self.came = number;
                self.heard = true;
                match place_of(&self.seats, None) {
                    Some(place) => self.seats[place].begin(Some(number)),
                    None => match P::rule() {
                        Rule::Application => self.waiting = Some(number),
                        Rule::Operators => refuse(&mut self.connections, number),
                    },
                }
                Ok(())
            }
        }
    }
}
