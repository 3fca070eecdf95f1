//! The ports of a node's wire.

ghost use Rattle.std.specs.Prelude.{◌≡◌};
ghost use Rattle.trdp_wire.specs.Ports.{is_port};

/// A UDP port of the node, by what it is for.
#[derive(Clone, Copy, Debug, PartialEq, Eq)]
pub enum Port {
    /// Process data (IEC 61375-2-3).
    Pd,
    /// Message data (IEC 61375-2-3).
    Md,
    /// Process data at the address of a group, in host order (IEC 61375-2-3).
    PdGroup(u32),
    /// Message data at the address of a group, in host order (IEC 61375-2-3).
    MdGroup(u32),
    /// The operator's lines (profile).
    Operator,
    /// The lines of the application in the slot of that number, from 0 (profile).
    Control(u16),
}

impl Port {
    /// Whether it is that port.
    #[tactic(auto, unfolding(crate::specs::Ports::is_port))]
    pub fn is(self, other: Port) -> bool
        ensures { result ≡ is_port self other }
    {
        self == other
    }
}
