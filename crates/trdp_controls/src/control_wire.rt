//! The wire of a node whose lines come over control sockets.

ghost use Rattle.std.specs.Prelude.{◌≡◌, ◌<◌, ◌≤◌, length, IfOk, IfSome, OnOk, OnErr, None, Some};
ghost use Rattle.std.specs.Prelude.{Bool, true, false, ◌||◌, is_err};
ghost use Rattle.std.specs.Option.{option_map};
ghost use Rattle.trdp_controls.specs.ControlWires.{GivesAtControl, GivesAtOperator};
ghost use Rattle.trdp_controls.specs.ControlWires.{TakesControl, TakesOperator};
ghost use Rattle.trdp_controls.specs.ControlWires.{GivesAtPort, IsUnasked, RestsOverNetwork};
ghost use Rattle.trdp_controls.specs.ControlWires.{TakesAtPort};
ghost use Rattle.trdp_wire.specs.Failures.{one_more_if};

use crate::path_calls::{
    accept_fault, give_text, give_text_at, is_end_at, missing_files, take_line,
};
use trdp_base::Place;
use trdp_lines::{Connections, ControlPath, LostText, OperatorPath};
use trdp_wire::{
    GiveRefusal, Missing, Port, SocketFault, Unread, WatchedWire, Wire, WireFault, fail,
};

/// Why a text is lost: there is no room for what is to go out (ENOBUFS).
const NO_BUFFER_SPACE: SocketFault = SocketFault { code: Some(105) };

/// The wire of a node whose lines come over connections at paths: process data and message data go
/// over a wire of the network, the lines of the operator and of the applications over the paths.
/// It reports no takes and gives; its contracts say what it makes of those of the network, and of
/// the calls of the connections.
#[derive(Drop)]
pub struct ControlWire<N: Wire, C: Connections> {
    /// The wire of the network, with the ports of process data and message data.
    pub(crate) network: N,
    /// The path of the operator's port; None if the configuration names none.
    pub(crate) operator: Option<OperatorPath<C>>,
    /// The path of the control port of each slot, at the slot's index; None if the
    /// configuration names none.
    pub(crate) controls: Vec<Option<ControlPath<C>>>,
    /// How often a take or a give failed, at most 2^64 - 1.
    pub(crate) failures: u64,
    /// The latest give that was refused; None before the first.
    pub(crate) refusal: Option<GiveRefusal>,
    /// The latest take that failed; None before the first.
    pub(crate) unread: Option<Unread>,
    /// Whether something came or failed at a path since the latest rest.
    pub(crate) heard: bool,
}

impl<N: WatchedWire, C: Connections> ControlWire<N, C> {
    ghost use Rattle.std.specs.Prelude.{◌≡◌, ◌<◌, ◌≤◌, ◌-◌, ◌^◌, length, IfOk, IfSome, OnErr};
    ghost use Rattle.std.specs.Prelude.{◌&&◌, is_err, nat_lt, None, Some, OnOk, ◌||◌, not, false};
    ghost use Rattle.std.specs.Option.{option_map};
    ghost use Rattle.trdp_wire.specs.declared.port.Port.TheVariants.{Control, Operator};
    ghost use Rattle.trdp_controls.specs.ControlWires.{GivesAtControl, GivesAtOperator};
    ghost use Rattle.trdp_controls.specs.ControlWires.{IsUnasked, NotesIf, TakesControl};
    ghost use Rattle.trdp_controls.specs.ControlWires.{TakesOperator};
    ghost use Rattle.trdp_controls.specs.ControlWires.{control_at, has_ended_at};
    ghost use Rattle.trdp_wire.specs.Failures.{one_more_if};
    ghost use Rattle.trdp_wire.specs.Told.{arrived_in, stands_for_end};

    /// Takes the next line of the application of a slot, or its end, and returns which it is.
    ///
    /// # Errors
    /// As [`ControlWire::take_control`].
    fn find_control(
        &mut self,
        slot: u16,
        anew: bool,
        room: &mut [u8],
    ) -> (Result<Option<(Place, usize)>, WireFault>, bool)
        ensures within { IfOk result.0 (λ found. IfSome found (λ f. f.1 ≤ length room.new)) }
        ensures takes { TakesControl N.takings N.gives N.news C.calls anew slot self.old self.new
            (length room.old) result.0 room.new }
        ensures ends { result.1 ≡ stands_for_end
            (has_ended_at (control_at self.new.controls.items slot))
            (arrived_in result.0 room.new) }
        ensures fault { OnErr result.0 (self.old.failures < self.new.failures) }
        ensures count { self.new.failures ≡ one_more_if (is_err result.0) self.old.failures }
        ensures kept { OnOk result.0 (self.new.unread ≡ self.old.unread) }
        ensures failed { OnErr result.0
            (option_map (λ u. u.port) self.new.unread ≡ Some (Control slot)) }
        ensures refusal { self.new.refusal ≡ self.old.refusal }
    {
        let found = self.take_control(slot, anew, room);
        let ended = is_end_at(&self.controls, usize::from(slot), found);
        (found, ended)
    }

    /// Takes the next line of the application of a slot, or its end.
    ///
    /// # Errors
    /// `WireFault` if nothing is there, the system refuses the next connection, and the count of
    /// failures rose.
    #[tactic(auto, unfolding(trdp_wire::specs::Failures::one_more_if))]
    fn take_control(
        &mut self,
        slot: u16,
        anew: bool,
        room: &mut [u8],
    ) -> Result<Option<(Place, usize)>, WireFault>
        ensures within { IfOk result (λ found. IfSome found (λ f. f.1 ≤ length room.new)) }
        ensures takes { TakesControl N.takings N.gives N.news C.calls anew slot self.old self.new
            (length room.old) result room.new }
        ensures fault { OnErr result (self.old.failures < self.new.failures) }
        ensures count { self.new.failures ≡ one_more_if (is_err result) self.old.failures }
        ensures kept { OnOk result (self.new.unread ≡ self.old.unread) }
        ensures failed { OnErr result
            (option_map (λ u. u.port) self.new.unread ≡ Some (Control slot)) }
        ensures refusal { self.new.refusal ≡ self.old.refusal }
    {
        let index = usize::from(slot);
        if index >= self.controls.len() {
            return Ok(None);
        }
        let port = Port::Control(slot);
        let control = &mut self.controls[index];
        let (found, heard) = take_line(control, room, &mut self.failures);
        if found.is_err() {
            let fault = accept_fault(&self.controls[index]);
            self.unread = Some(Unread { port, fault });
        }
        self.note(port, anew, heard || found.is_err(), heard);
        found
    }

    /// Takes the next line of the operator.
    ///
    /// # Errors
    /// As [`ControlWire::take_control`].
    fn take_operator(
        &mut self,
        anew: bool,
        room: &mut [u8],
    ) -> Result<Option<(Place, usize)>, WireFault>
        ensures within { IfOk result (λ found. IfSome found (λ f. f.1 ≤ length room.new)) }
        ensures takes { TakesOperator N.takings N.gives N.news C.calls anew self.old self.new
            (length room.old) result room.new }
        ensures fault { OnErr result (self.old.failures < self.new.failures) }
        ensures count { self.new.failures ≡ one_more_if (is_err result) self.old.failures }
        ensures kept { OnOk result (self.new.unread ≡ self.old.unread) }
        ensures failed { OnErr result (option_map (λ u. u.port) self.new.unread ≡ Some Operator) }
        ensures refusal { self.new.refusal ≡ self.old.refusal }
    {
        let port = Port::Operator;
        let (found, heard) = take_line(&mut self.operator, room, &mut self.failures);
        if found.is_err() {
            let fault = accept_fault(&self.operator);
            self.unread = Some(Unread { port, fault });
        }
        self.note(port, anew, heard || found.is_err(), heard);
        found
    }

    /// Notes the result of a take at a path: whether more may be there, and whether something was
    /// heard. If nothing may be there, the port isn't asked again before its next news. A take that
    /// failed is repeated. The news of the other ports doesn't change.
    fn note(&mut self, port: Port, anew: bool, may_be: bool, heard: bool)
        ensures network { IsUnasked N.takings N.gives N.news port self.old.network
            self.new.network }
        ensures noted { NotesIf (anew || not may_be) may_be
            (N.news self.old.network port) (N.news self.new.network port) }
        ensures heard { self.new.heard ≡ self.old.heard || heard }
        ensures failures { self.new.failures ≡ self.old.failures }
        ensures unread { self.new.unread ≡ self.old.unread }
        ensures operator { self.new.operator ≡ self.old.operator }
        ensures controls { self.new.controls ≡ self.old.controls }
        ensures refusal { self.new.refusal ≡ self.old.refusal }
    {
        self.heard = self.heard || heard;
        if anew || !may_be {
            self.network.set_news(port, may_be);
        }
    }

    /// The answer of a give at a path to what became of its text. A text that was lost, because
    /// there is no room for it, is counted and kept as the latest refusal.
    ///
    /// # Errors
    /// `WireFault` if the text was lost, and the count of failures rose.
    #[tactic(auto, unfolding(trdp_wire::specs::Failures::one_more_if))]
    fn count_lost(
        &mut self,
        said: Result<(), LostText>,
        port: Port,
        to: Place,
    ) -> Result<(), WireFault>
        ensures fault { OnErr result (self.old.failures < self.new.failures) }
        ensures count { self.new.failures ≡ one_more_if (is_err result) self.old.failures }
        ensures counted { is_err result
            ≡ is_err said && nat_lt self.old.failures (2 ^ 64 - 1) }
        ensures network { self.new.network ≡ self.old.network }
        ensures operator { self.new.operator ≡ self.old.operator }
        ensures controls { self.new.controls ≡ self.old.controls }
        ensures heard { self.new.heard ≡ self.old.heard }
        ensures unread { self.new.unread ≡ self.old.unread }
    {
        if said.is_ok() {
            return Ok(());
        }
        let fault = NO_BUFFER_SPACE;
        self.refusal = Some(GiveRefusal { port, to, fault });
        fail(&mut self.failures)
    }
}

impl<N: WatchedWire, C: Connections> Wire for ControlWire<N, C> {
    ghost use Rattle.std.specs.Prelude.{None};

    ghost takings = { λ _. None };

    ghost gives = { λ _. None };

    ghost faults = { λ wire. wire.failures };

    fn take(&mut self, port: Port, room: &mut [u8]) -> Result<Option<(Place, usize)>, WireFault>
        ensures within { IfOk result (λ found. IfSome found (λ f. f.1 ≤ length room.new)) }
        ensures fault { OnErr result (self.old.failures < self.new.failures) }
        ensures count { self.new.failures ≡ one_more_if (is_err result) self.old.failures }
        ensures takes { (ended : Bool) × TakesAtPort N.takings N.gives N.news C.calls
            (N.news self.old.network port) false self.old self.new port (length room.old) result
            ended room.new }
        ensures kept { OnOk result (self.new.unread ≡ self.old.unread) }
        ensures failed { OnErr result (option_map (λ u. u.port) self.new.unread ≡ Some port) }
        ensures refusal { self.new.refusal ≡ self.old.refusal }
    {
        let (found, _) = self.find(port, false, room);
        found
    }

    #[tactic(auto, unfolding(trdp_wire::specs::Failures::one_more_if))]
    fn find(
        &mut self,
        port: Port,
        anew: bool,
        room: &mut [u8],
    ) -> (Result<Option<(Place, usize)>, WireFault>, bool)
        ensures within { IfOk result.0 (λ found. IfSome found (λ f. f.1 ≤ length room.new)) }
        ensures fault { OnErr result.0 (self.old.failures < self.new.failures) }
        ensures count { self.new.failures ≡ one_more_if (is_err result.0) self.old.failures }
        ensures takes { TakesAtPort N.takings N.gives N.news C.calls
            (anew || N.news self.old.network port) anew self.old self.new port
            (length room.old) result.0 result.1 room.new }
        ensures kept { OnOk result.0 (self.new.unread ≡ self.old.unread) }
        ensures failed { OnErr result.0 (option_map (λ u. u.port) self.new.unread ≡ Some port) }
        ensures refusal { self.new.refusal ≡ self.old.refusal }
    {
        let looks = anew || self.network.has_news(port);
        match port {
            Port::Pd | Port::Md | Port::PdGroup(_) | Port::MdGroup(_) => {
                self.find_telegram(port, anew, room)
            }
            _ if !looks => (Ok(None), false),
            Port::Operator => (self.take_operator(anew, room), false),
            Port::Control(slot) => self.find_control(slot, anew, room),
        }
    }

    fn give(&mut self, port: Port, to: Place, bytes: &[u8]) -> Result<(), WireFault>
        ensures fault { OnErr result (self.old.failures < self.new.failures) }
        ensures count { self.new.failures ≡ one_more_if (is_err result) self.old.failures }
        ensures gives { GivesAtPort N.takings N.gives C.calls self.old self.new port to bytes.now
            result }
        ensures heard { self.new.heard ≡ self.old.heard }
        ensures unread { self.new.unread ≡ self.old.unread }
    {
        match port {
            Port::Pd | Port::Md | Port::PdGroup(_) | Port::MdGroup(_) => {
                self.give_telegram(port, to, bytes)
            }
            Port::Operator => {
                let said = give_text(&mut self.operator, to, bytes);
                self.count_lost(said, port, to)
            }
            Port::Control(slot) => {
                let said = give_text_at(&mut self.controls, usize::from(slot), to, bytes);
                self.count_lost(said, port, to)
            }
        }
    }

    fn failures(&self) -> u64 {
        self.failures
    }

    fn refusal(&self) -> Option<GiveRefusal>
        ensures { result ≡ self.now.refusal }
    {
        self.refusal
    }

    fn unread(&self) -> Option<Unread>
        ensures { result ≡ self.now.unread }
    {
        self.unread
    }

    fn missing(&self) -> Missing<'_> {
        missing_files(&self.operator, &self.controls)
    }
}

impl<N: WatchedWire, C: Connections> WatchedWire for ControlWire<N, C> {
    ghost use Rattle.trdp_wire.specs.News.{IsNoted};
    ghost use Rattle.trdp_wire.specs.Ports.{are_apart};
    ghost use Rattle.trdp_wire.specs.declared.port.Port.{Port};

    ghost news = { λ wire. N.news wire.network };

    ghost rested = { RestsOverNetwork N.rested };

    fn rest(&mut self, most: u64)
        ensures rests { RestsOverNetwork N.rested self.old self.new most }
        ensures fault { self.new.failures ≡ self.old.failures }
        ensures refusal { self.new.refusal ≡ self.old.refusal }
        ensures unread { self.new.unread ≡ self.old.unread }
    {
        // Where something was heard, more may be there: so the network has no time to wait.
        let most = if self.heard { 0 } else { most };
        self.heard = false;
        self.network.rest(most);
    }

    fn has_news(&self, port: Port) -> bool {
        self.network.has_news(port)
    }

    fn set_news(&mut self, port: Port, may_be: bool)
        ensures noted { IsNoted may_be (N.news self.old.network port)
            (N.news self.new.network port) }
        ensures others { (other : Port) → are_apart port other ≡ true
            → N.news self.new.network other ≡ N.news self.old.network other }
        ensures fault { self.new.failures ≡ self.old.failures }
        ensures network { IsUnasked N.takings N.gives N.news port self.old.network
            self.new.network }
        ensures operator { self.new.operator ≡ self.old.operator }
        ensures controls { self.new.controls ≡ self.old.controls }
        ensures heard { self.new.heard ≡ self.old.heard }
        ensures refusal { self.new.refusal ≡ self.old.refusal }
        ensures unread { self.new.unread ≡ self.old.unread }
    {
        self.network.set_news(port, may_be);
    }
}
