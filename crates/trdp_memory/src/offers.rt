//! What a wire in memory was given.

ghost use Rattle.std.specs.Prelude.{◌≡◌, length, map};
ghost use Rattle.trdp_memory.specs.Rows.{bytes_in, gives_of};

use crate::rows::GiveRow;
use std::marker::Model;
use trdp_base::Place;
use trdp_wire::Port;

/// The datagrams that were offered to a wire in memory, in order: the port that each left from,
/// where it went, and its bytes.
#[derive(Drop)]
pub struct Offers<'a> {
    /// Where each left from, where it went, and how many bytes it has.
    given: &'a [GiveRow],
    /// The bytes of these, joined in order.
    bytes: &'a [u8],
}

impl<'a> Model for Offers<'a> {
    ghost use Rattle.std.specs.Prelude.{◌≡◌, List, length, map};
    ghost use Rattle.trdp_memory.specs.Rows.{bytes_in, gives_of};
    ghost use Rattle.trdp_wire.specs.Told.{Offer};

    ghost Value = { List Offer };

    ghost view = { λ o. map (λ give. give.offer) (gives_of o.bytes.now o.given.now) };

    ghost invariant = { λ o. bytes_in o.given.now ≡ length o.bytes.now };
}

impl<'a> Offers<'a> {
    /// The datagrams of these rows, whose bytes are joined in order.
    pub(crate) fn new(given: &'a [GiveRow], bytes: &'a [u8]) -> Offers<'a>
        requires { bytes_in given.now ≡ length bytes.now }
        ensures { result ≡ map (λ give. give.offer) (gives_of bytes.now given.now) }
    {
        Offers { given, bytes }
    }
}

impl<'a> Iterator for Offers<'a> {
    ghost use Rattle.std.specs.Iterator.{YieldsFirstBy, item_count};
    ghost use Rattle.trdp_wire.specs.Told.{offer_to};

    type Item = (Port, Place, &'a [u8]);

    ghost next_gives = { YieldsFirstBy (λ o. offer_to o.0 o.1 o.2.now) (λ offers. offers) };

    ghost remaining = { item_count (λ offers. offers) };

    fn next(&mut self) -> Option<(Port, Place, &'a [u8])> {
        let (row, given) = self.given.split_first()?;
        let (bytes, rest) = self.bytes.split_at(row.len);
        self.given = given;
        self.bytes = rest;
        Some((row.port, row.to, bytes))
    }
}
