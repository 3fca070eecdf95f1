//! The payload of a request.

ghost use Rattle.std.specs.Prelude.{◌≡◌, ◌≤◌, length, IfOk};
ghost use Rattle.trdp_base.specs.Limits.{md_payload_limit};

use std::alloc::{AllocError, Global};
use std::marker::Model;

/// At most 65,388 bytes, in memory of their own.
#[derive(Drop)]
pub struct Payload {
    /// The bytes, in as much memory as they need.
    bytes: Vec<u8>,
}

impl Model for Payload {
    ghost use Rattle.std.specs.Prelude.{◌≤◌, ℕ, List, length};
    ghost use Rattle.trdp_base.specs.Limits.{md_payload_limit};

    ghost Value = { List ℕ };

    ghost view = { λ p. p.bytes.items };

    ghost invariant = { λ p. length p.bytes.items ≤ md_payload_limit };
}

impl Payload {
    /// A copy of these bytes.
    ///
    /// # Errors
    /// [`AllocError`] where there is no memory for it.
    pub fn new(alloc: Global, bytes: &[u8]) -> Result<Payload, AllocError>
        requires { length bytes.now ≤ md_payload_limit }
        ensures { IfOk result (λ payload. payload ≡ bytes.now) }
    {
        let mut copy = Vec::with_capacity(alloc, bytes.len())?;
        copy.extend_from_slice(bytes).unwrap();
        Ok(Payload { bytes: copy })
    }

    /// The bytes.
    pub fn bytes(&self) -> &[u8]
        ensures value { result.now ≡ self.now }
        ensures within { length result.now ≤ md_payload_limit }
    {
        &self.bytes
    }
}
