//! The keys that the clients read and the node ignores.

use crate::place::FileTable;
use crate::reading::Reading;
use crate::value::natural;
use toml::Value;

/// A key that the clients read and the node ignores.
#[derive(Clone, Copy, PartialEq, Eq)]
pub(crate) enum ClientKey {
    /// `name` of a slot, a dataset, an element or a telegram.
    Name,
    /// `unit` of an element, for people.
    Unit,
    /// `scale` of an element, by which its values are multiplied for people.
    Scale,
    /// `offset` of an element, which is added to that product.
    Offset,
    /// `as` of an element, the type as which it is read.
    As,
    /// `com_id` of a telegram.
    ComId,
    /// `dataset` of a telegram; 0 means bytes.
    TelegramDataset,
    /// `cycle_us` of a telegram, how often a publisher sends it.
    CycleUs,
    /// `time_us` of a telegram, the supervision time of a subscription.
    TimeUs,
    /// `reply_us` of a telegram, how long a request waits for its replies.
    ReplyUs,
    /// `confirm_us` of a telegram, how long a query waits for its confirmation.
    ConfirmUs,
}

/// The keys that the clients read in the table of a slot or of a dataset.
const NAME_KEYS: [ClientKey; 1] = [ClientKey::Name];

/// The keys that the clients read in the table of an element.
const ELEMENT_KEYS: [ClientKey; 5] = [
    ClientKey::Name,
    ClientKey::Unit,
    ClientKey::Scale,
    ClientKey::Offset,
    ClientKey::As,
];

/// The keys of the table of a telegram.
const TELEGRAM_KEYS: [ClientKey; 7] = [
    ClientKey::ComId,
    ClientKey::TelegramDataset,
    ClientKey::Name,
    ClientKey::CycleUs,
    ClientKey::TimeUs,
    ClientKey::ReplyUs,
    ClientKey::ConfirmUs,
];

/// The keys that the clients read in a table and the node ignores.
pub(crate) fn client_keys(place: FileTable) -> &'static [ClientKey] {
    match place {
        FileTable::Root | FileTable::Node => &[],
        FileTable::Slot(_) | FileTable::Dataset(_) => &NAME_KEYS,
        FileTable::Element(..) => &ELEMENT_KEYS,
        FileTable::Telegram(_) => &TELEGRAM_KEYS,
    }
}

impl ClientKey {
    /// The key as the file has it.
    pub(crate) fn text(self) -> &'static str {
        match self {
            ClientKey::Name => "name",
            ClientKey::Unit => "unit",
            ClientKey::Scale => "scale",
            ClientKey::Offset => "offset",
            ClientKey::As => "as",
            ClientKey::ComId => "com_id",
            ClientKey::TelegramDataset => "dataset",
            ClientKey::CycleUs => "cycle_us",
            ClientKey::TimeUs => "time_us",
            ClientKey::ReplyUs => "reply_us",
            ClientKey::ConfirmUs => "confirm_us",
        }
    }

    /// What the key needs in place of a value that it doesn't fit; None where it fits. A comId and
    /// the dataset of a telegram are looked at beside the other tables.
    pub(crate) fn wish(self, value: &Value) -> Option<&'static str> {
        match self {
            ClientKey::Name if !is_name(value) => {
                Some("a text is wanted, not empty and without control characters")
            }
            ClientKey::Unit if !is_plain_text(value) => {
                Some("a text without control characters is wanted")
            }
            ClientKey::Scale if !is_scale(value) => {
                Some("a finite number other than 0 is wanted")
            }
            ClientKey::Offset if !is_number(value) => Some("a finite number is wanted"),
            ClientKey::As if reading_of(value).is_none() => {
                Some("REAL32, REAL64 or ANTIVALENT8 is wanted")
            }
            ClientKey::CycleUs | ClientKey::TimeUs | ClientKey::ReplyUs | ClientKey::ConfirmUs
                if !is_time(value) => { Some("a number of 0 to 4294967295") }
            _ => None,
        }
    }
}

/// Whether a value is a text without control characters.
fn is_plain_text(value: &Value) -> bool {
    match value.as_str() {
        Some(text) => !text.chars().any(|letter| letter.is_control()),
        None => false,
    }
}

/// Whether a value is a name: a text without control characters, which isn't empty.
fn is_name(value: &Value) -> bool {
    is_plain_text(value) && value.as_str() != Some("")
}

/// Whether a value is a finite number.
fn is_number(value: &Value) -> bool {
    match value {
        Value::Integer(_) => true,
        Value::Float(number) => number.is_finite(),
        _ => false,
    }
}

/// Whether a value is a finite number other than 0.
fn is_scale(value: &Value) -> bool {
    match value {
        Value::Integer(number) => *number != 0,
        Value::Float(number) => number.is_finite() && *number != 0.0,
        _ => false,
    }
}

/// Whether a value is a time in microseconds that a telegram may have.
fn is_time(value: &Value) -> bool {
    natural(value).is_some_and(|number| number <= u64::from(u32::MAX))
}

/// What a value says that an element is read as.
pub(crate) fn reading_of(value: &Value) -> Option<Reading> {
    Reading::named(value.as_str()?)
}
