//! What a node reported at an event, and the telegrams among it.

ghost use Rattle.std.specs.Prelude.{◌≡◌, ◌∷◌, [], slice_get, option_map, option_to_list};
ghost use Rattle.trdp_model.specs.Configs.{setup_of};
ghost use Rattle.trdp_model.specs.Records.{record_model};
ghost use Rattle.trdp_net.specs.Tellings.{place_at, IsOwnHome, SoughtIn, sends_from};
ghost use Rattle.trdp_net.specs.Tellings.{sent_in_slot, sent_in};
ghost use Rattle.trdp_net.specs.Tellings.{all_sent, sent_model, latest};

use trdp_engine::{Ip, NodeConfig, Outbox, Place, Protocol, Record, What};

/// The places (address and port) of a node.
#[derive(Clone, Copy, Drop)]
pub(crate) struct Home {
    /// Its place for process data.
    pd: Place,
    /// Its place for message data.
    md: Place,
}

impl Home {
    /// The places of a node of that configuration.
    pub(crate) fn of(config: &NodeConfig) -> Home
        ensures { IsOwnHome result (setup_of config.now) }
    {
        let ip = config.address();
        Home {
            pd: Place {
                ip,
                port: config.pd_port(),
            },
            md: Place {
                ip,
                port: config.md_port(),
            },
        }
    }

    /// Its place for telegrams of that protocol.
    pub(crate) fn place(&self, protocol: Protocol) -> Place
        ensures { result ≡ place_at protocol self.now }
    {
        match protocol {
            Protocol::Pd => self.pd,
            Protocol::Md => self.md,
        }
    }
}

/// A telegram that was sent.
#[derive(Clone, Copy, Debug)]
pub struct Sent<'a> {
    /// The protocol, over whose port it was sent.
    pub protocol: Protocol,
    /// The place of its sender.
    pub from: Place,
    /// The place that it was sent to: a node's, or one of a group address.
    pub to: Place,
    /// Every byte of it, the header first.
    pub bytes: &'a [u8],
}

/// The result of a search through telegrams.
#[derive(Clone, Copy)]
pub(crate) enum TelegramSearch<'a> {
    /// It is among them.
    Found(Sent<'a>),
    /// It isn't, and this is its number among those that come after them.
    Left(usize),
}

/// What a node reported at an event that it accepted.
#[derive(Drop)]
pub(crate) struct Told {
    /// The places of the node.
    pub(crate) home: Home,
    /// How many slots it had before the event.
    pub(crate) slots: usize,
    /// Its records.
    pub(crate) out: Outbox,
}

/// The telegram of a record, where it is one.
fn telegram_of<'a>(entry: &Record<'a>, home: &Home) -> Option<Sent<'a>>
    ensures { option_to_list (option_map sent_model result)
        ≡ sends_from home.now ((record_model entry.now).content ∷ []) }
{
    match entry.what {
        What::Send { kind, to, telegram } => Some(Sent {
            protocol: kind,
            from: home.place(kind),
            to,
            bytes: telegram,
        }),
        What::Answer(_) => None,
        What::Indication(_) => None,
    }
}

/// Looks for the telegram of that number where there is at most one.
fn seek_one<'a>(sent: Option<Sent<'a>>, which: usize) -> TelegramSearch<'a>
    ensures { SoughtIn (option_to_list (option_map sent_model sent.entry)) which result }
{
    match sent {
        None => TelegramSearch::Left(which),
        Some(sent) => {
            if which == 0 {
                TelegramSearch::Found(sent)
            } else {
                TelegramSearch::Left(which - 1)
            }
        }
    }
}

/// Looks for the telegram of that number in one record.
fn seek_in_record<'a>(
    entry: &Record<'a>,
    slot: usize,
    home: &Home,
    which: usize,
) -> TelegramSearch<'a>
    ensures { SoughtIn (sent_in_slot home.now slot (record_model entry.now ∷ [])) which result }
{
    if usize::from(entry.slot) == slot {
        seek_one(telegram_of(entry, home), which)
    } else {
        TelegramSearch::Left(which)
    }
}

/// Looks for the telegram of that number in the i-th record, if there is one.
fn seek_at<'a>(
    out: &'a Outbox,
    i: usize,
    slot: usize,
    home: &Home,
    which: usize,
) -> TelegramSearch<'a>
    ensures { SoughtIn
        (sent_in_slot home.now slot (option_to_list (slice_get out.now.records i))) which result }
{
    match out.get(i) {
        None => TelegramSearch::Left(which),
        Some(entry) => seek_in_record(&entry, slot, home, which),
    }
}

impl Told {
    /// Looks for the telegram of that number among those of one slot.
    fn seek_in_slot(&self, slot: usize, which: usize) -> TelegramSearch<'_>
        ensures { SoughtIn (sent_in_slot self.now.home slot self.now.out.records) which result }
    {
        let mut left = which;
        for i in 0..self.out.len() {
            match seek_at(&self.out, i, slot, &self.home, left) {
                TelegramSearch::Found(sent) => return TelegramSearch::Found(sent),
                TelegramSearch::Left(n) => left = n,
            }
        }
        TelegramSearch::Left(left)
    }

    /// Looks for the telegram of that number among those of the event, slot by slot.
    fn seek(&self, which: usize) -> TelegramSearch<'_>
        ensures { SoughtIn (sent_in self.now) which result }
    {
        let mut left = which;
        for slot in 0..self.slots {
            match self.seek_in_slot(slot, left) {
                TelegramSearch::Found(sent) => return TelegramSearch::Found(sent),
                TelegramSearch::Left(n) => left = n,
            }
        }
        TelegramSearch::Left(left)
    }
}

/// The telegram of that number, from 0, of those that were sent at these events, in order.
pub(crate) fn find(events: &[Told], which: usize) -> Option<Sent<'_>>
    ensures { option_map sent_model result ≡ slice_get (all_sent events.now) which }
{
    let mut left = which;
    for told in events {
        match told.seek(left) {
            TelegramSearch::Found(sent) => return Some(sent),
            TelegramSearch::Left(n) => left = n,
        }
    }
    None
}

/// The i-th record of the last event, from 0; None past its last, and where there is no event.
pub(crate) fn latest(events: &[Told], i: usize) -> Option<Record<'_>>
    ensures { option_map record_model result ≡ slice_get (latest events.now) i }
{
    match events.last() {
        None => None,
        Some(told) => told.out.get(i),
    }
}
