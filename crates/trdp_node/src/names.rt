//! The names of refusals, faults and reasons, and the text of a configuration's fault.

ghost use Rattle.std.specs.Prelude.{◌≡◌, ◌≢◌, ◌≤◌, [], Some, None, length};
ghost use Rattle.trdp_model.specs.declared.fault.NodeFault.{NodeFault};
ghost use Rattle.trdp_model.specs.declared.fault.Refusal.{Refusal};
ghost use Rattle.trdp_pd.specs.declared.object.Reason.{Reason};
ghost use Rattle.trdp_text.specs.ConfigNames.{text_of_config_fault};
ghost use Rattle.trdp_text.specs.RecordText.{name_of_fault, name_of_reason, name_of_refusal};
ghost use Rattle.trdp_node.specs.Codes.{reason_code, refusal_code, status_of_fault};
ghost use Rattle.trdp_node.specs.Openings.{fault_told, filled};

use crate::numbers::{NO_CODE, OK, fault_of, reason_of, refusal_of};
use crate::results::{FAULT_ROOM, Fault, Name};
use arrayvec::ArrayString;
use itoa::Buffer;
use trdp_engine::ConfigFault;
use trdp_text::{config_fault_name, fault_name, reason_name, refusal_name};

/// Writes the name of the refusal of that number, and returns the status.
pub fn put_refusal_name(number: u32, name: &mut Name) -> u32
    ensures found { (it : Refusal) → number ≡ refusal_code it
        → (name.new.text ≡ filled 16 (name_of_refusal it)) × (result ≡ 0) }
    ensures none { ((it : Refusal) → number ≢ refusal_code it)
        → (name.new.text ≡ filled 16 []) × (result ≡ 25) }
{
    match refusal_of(number) {
        Some(refusal) => put_name(name, refusal_name(refusal)),
        None => put_no_name(name),
    }
}

/// Writes the name of the node's fault of that number, and returns the status.
pub fn put_fault_name(number: u32, name: &mut Name) -> u32
    ensures found { (it : NodeFault) → number ≡ status_of_fault it
        → (name.new.text ≡ filled 16 (name_of_fault it)) × (result ≡ 0) }
    ensures none { ((it : NodeFault) → number ≢ status_of_fault it)
        → (name.new.text ≡ filled 16 []) × (result ≡ 25) }
{
    match fault_of(number) {
        Some(fault) => put_name(name, fault_name(fault)),
        None => put_no_name(name),
    }
}

/// Writes the name of the reason of that number, and returns the status.
pub fn put_reason_name(number: u32, name: &mut Name) -> u32
    ensures found { (it : Reason) → number ≡ reason_code it
        → (name.new.text ≡ filled 16 (name_of_reason it)) × (result ≡ 0) }
    ensures none { ((it : Reason) → number ≢ reason_code it)
        → (name.new.text ≡ filled 16 []) × (result ≡ 25) }
{
    match reason_of(number) {
        Some(reason) => put_name(name, reason_name(reason)),
        None => put_no_name(name),
    }
}

/// Writes a name, and returns the status.
fn put_name(name: &mut Name, text: &[u8]) -> u32
    requires { length text.now ≤ 15 }
    ensures text { name.new.text ≡ filled 16 text.now }
    ensures status { result ≡ 0 }
{
    put_text(&mut name.text, text);
    OK
}

/// Writes that there is none, and returns the status.
fn put_no_name(name: &mut Name) -> u32
    ensures text { name.new.text ≡ filled 16 [] }
    ensures status { result ≡ 25 }
{
    put_text(&mut name.text, &[]);
    NO_CODE
}

/// Writes a text, and zeros behind it.
fn put_text(room: &mut [u8], text: &[u8])
    requires { length text.now ≤ length room.old }
    ensures { room.new ≡ filled (length room.old) text.now }
{
    room.fill(0);
    room[..text.len()].copy_from_slice(text);
}

impl Fault {
    /// Writes that there is none.
    #[tactic(auto, unfolding(crate::specs::Openings::fault_told))]
    pub fn put_none(&mut self)
        ensures { self.new ≡ fault_told None }
    {
        self.number = 0;
        put_text(&mut self.text, &[]);
    }

    /// Writes a fault of the configuration.
    #[tactic(auto, unfolding(crate::specs::Openings::fault_told))]
    pub fn put(&mut self, fault: ConfigFault)
        ensures { self.new ≡ fault_told (Some fault) }
    {
        let text = config_fault_text(fault);
        self.number = u32::from(fault.rank());
        put_text(&mut self.text, text.as_str().as_bytes());
    }
}

/// What the program prints for a fault of the configuration.
#[tactic(auto, using(crate::proofs::NameLemmas::key_short))]
fn config_fault_text(fault: ConfigFault) -> ArrayString<FAULT_ROOM>
    ensures text { result.bytes ≡ text_of_config_fault fault }
    ensures length { length result.bytes ≤ 59 }
{
    let mut text = ArrayString::<FAULT_ROOM>::new();
    text.push_str("config fault ");
    text.push_str(config_fault_name(fault));
    match fault {
        ConfigFault::Missing(key) | ConfigFault::WrongType(key) => {
            text.push_str(" ");
            text.push_str(key.text());
        }
        ConfigFault::NoDataset(id) => {
            text.push_str(" ");
            text.push_str(Buffer::new().format(id));
        }
        _ => {}
    }
    text
}
