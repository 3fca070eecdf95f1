//! The keys of a configuration file, and the one table of what a file may and must have at each of
//! them.

ghost use Rattle.std.specs.Prelude.{◌≡◌};
ghost use Rattle.trdp_dataset.specs.Keys.{key_row, key_text, wanted_by, is_required, default_of};

use std::fmt;

/// A key of a configuration file (profile).
#[derive(Clone, Copy, Debug, PartialEq, Eq)]
pub enum Key {
    /// `node`, the table of the node.
    Node,
    /// `address` of the node.
    Address,
    /// `pd_port` of the node, the port of process data.
    PdPort,
    /// `md_port` of the node, the port of message data.
    MdPort,
    /// `operator_port` of the node.
    OperatorPort,
    /// `spare_control_ports` of the node, the control ports of slots that are added while it runs.
    SpareControlPorts,
    /// `control_address` of the node, at which the control ports and the operator's are bound.
    ControlAddress,
    /// `groups` of the node, the addresses of the multicast groups that the system joins for it.
    Groups,
    /// `ttl` of the node, how many hops its telegrams may take.
    Ttl,
    /// `slot`, the tables of the application slots.
    Slot,
    /// `publishers` of a slot.
    Publishers,
    /// `subscriptions` of a slot.
    Subscriptions,
    /// `requesters` of a slot.
    Requesters,
    /// `listeners` of a slot.
    Listeners,
    /// `callers` of a slot.
    Callers,
    /// `repliers` of a slot.
    Repliers,
    /// `control_port` of a slot.
    ControlPort,
    /// `dataset`, the tables of the datasets.
    Dataset,
    /// `id` of a dataset.
    DatasetId,
    /// `element`, the tables of a dataset's elements.
    Elements,
    /// `type` of an element.
    ElementType,
    /// `size` of an element.
    ElementSize,
}

/// What the value at a key has to be (profile).
#[derive(Clone, Copy)]
pub enum Wanted {
    /// A table.
    Table,
    /// An array of tables; more than that many are [`ConfigFault::TooMany`](crate::ConfigFault).
    Tables(u16),
    /// The text of an IPv4 address.
    Address,
    /// A whole number from the first to the second, ends included.
    Number(u16, u16),
    /// An array of whole numbers from the second to the third, ends included; more of them than
    /// the first are [`ConfigFault::TooMany`](crate::ConfigFault).
    Numbers(u16, u16, u16),
    /// An array of the texts of IPv4 addresses from the second to the third, in host order, ends
    /// included, none of them there twice; more of them than the first are
    /// [`ConfigFault::TooMany`](crate::ConfigFault).
    Addresses(u16, u32, u32),
    /// A whole number from 0 on; one above this is
    /// [`ConfigFault::TooMany`](crate::ConfigFault).
    Quota(u16),
    /// The identifier of a dataset, a whole number; one that isn't from the first to the second,
    /// ends included, is [`ConfigFault::BadId`](crate::ConfigFault).
    Identifier(u32, u32),
    /// The type of an element, by its name or its number.
    Kind,
}

/// What it means that a key isn't there (profile).
#[derive(Clone, Copy, PartialEq, Eq)]
pub enum Absent {
    /// The fault [`ConfigFault::Missing`](crate::ConfigFault), as does an array without members.
    Missing,
    /// An array without members.
    Empty,
    /// The address of the node.
    Own,
    /// This number.
    Default(u16),
}

/// A row of the table of keys.
#[derive(Clone, Copy)]
pub(crate) struct KeyRow {
    /// The key as the file has it.
    pub(crate) text: &'static str,
    /// What its value has to be.
    pub(crate) wanted: Wanted,
    /// What it means that it isn't there.
    pub(crate) absent: Absent,
}

/// The least address of a group, 224.0.0.0, in host order.
const GROUP_MIN: u32 = 0xe000_0000;

/// The greatest address of a group, 239.255.255.255, in host order.
const GROUP_MAX: u32 = 0xefff_ffff;

/// A row of the table of keys.
fn row(text: &'static str, wanted: Wanted, absent: Absent) -> KeyRow
    ensures text { result.text.now ≡ text.now }
    ensures wanted { result.wanted ≡ wanted }
    ensures absent { result.absent ≡ absent }
{
    KeyRow {
        text,
        wanted,
        absent,
    }
}

impl Key {
    /// The table of keys: the root's `node`, the node's keys, the root's `slot`, a slot's keys,
    /// the root's `dataset`, the keys of a dataset and those of an element.
    pub(crate) fn row(self) -> KeyRow
        ensures text { result.text.now ≡ (key_row self).text }
        ensures wanted { result.wanted ≡ (key_row self).wanted }
        ensures absent { result.absent ≡ (key_row self).absent }
    {
        match self {
            Key::Node => row("node", Wanted::Table, Absent::Missing),
            Key::Address => row("address", Wanted::Address, Absent::Missing),
            Key::PdPort => row("pd_port", Wanted::Number(1, 65535), Absent::Default(17224)),
            Key::MdPort => row("md_port", Wanted::Number(1, 65535), Absent::Default(17225)),
            Key::OperatorPort => row(
                "operator_port",
                Wanted::Number(0, 65535),
                Absent::Default(0),
            ),
            Key::SpareControlPorts => row(
                "spare_control_ports",
                Wanted::Numbers(15, 0, 65535),
                Absent::Empty,
            ),
            Key::ControlAddress => row("control_address", Wanted::Address, Absent::Own),
            Key::Groups => row(
                "groups",
                Wanted::Addresses(32, GROUP_MIN, GROUP_MAX),
                Absent::Empty,
            ),
            Key::Ttl => row("ttl", Wanted::Number(1, 255), Absent::Default(64)),
            Key::Slot => row("slot", Wanted::Tables(16), Absent::Missing),
            Key::Publishers => row("publishers", Wanted::Quota(256), Absent::Default(0)),
            Key::Subscriptions => row("subscriptions", Wanted::Quota(256), Absent::Default(0)),
            Key::Requesters => row("requesters", Wanted::Quota(256), Absent::Default(0)),
            Key::Listeners => row("listeners", Wanted::Quota(256), Absent::Default(0)),
            Key::Callers => row("callers", Wanted::Quota(256), Absent::Default(0)),
            Key::Repliers => row("repliers", Wanted::Quota(256), Absent::Default(0)),
            Key::ControlPort => row("control_port", Wanted::Number(0, 65535), Absent::Default(0)),
            Key::Dataset => row("dataset", Wanted::Tables(256), Absent::Empty),
            Key::DatasetId => row("id", Wanted::Identifier(31, 4_294_967_295), Absent::Missing),
            Key::Elements => row("element", Wanted::Tables(256), Absent::Missing),
            Key::ElementType => row("type", Wanted::Kind, Absent::Missing),
            Key::ElementSize => row("size", Wanted::Number(0, 65535), Absent::Default(1)),
        }
    }

    /// The key as the file has it.
    pub fn text(self) -> &'static str
        ensures value { result.now ≡ key_text self }
    {
        self.row().text
    }

    /// What the value at the key has to be.
    pub(crate) fn wanted(self) -> Wanted
        ensures value { result ≡ wanted_by self }
    {
        self.row().wanted
    }

    /// Whether the key must be there, and an array under it not be empty.
    pub(crate) fn is_required(self) -> bool
        ensures value { result ≡ is_required self }
    {
        self.row().absent == Absent::Missing
    }

    /// The default of a key that isn't there; 0 where no number is its default.
    pub(crate) fn default_number(self) -> u16
        ensures value { result ≡ default_of self }
    {
        match self.row().absent {
            Absent::Default(number) => number,
            _ => 0,
        }
    }
}

impl fmt::Display for Key {
    ghost use Rattle.std.specs.Prelude.{Some};
    ghost use Rattle.trdp_dataset.specs.Keys.{key_text};

    ghost output = { λ key. Some (key_text key) };

    fn fmt<W: fmt::Write>(&self, f: &mut fmt::Formatter<W>) -> fmt::Result {
        write!(f, "{}", self.text())
    }
}
