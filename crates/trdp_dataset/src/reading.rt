//! The types that the clients know and the node doesn't: an element of another type is read as one
//! of them.

use crate::element::ElementKind;
use crate::value::kind;
use toml::Value;

/// A type as which the clients read an element of another type, the only one that the node knows.
#[derive(Clone, Copy, PartialEq, Eq)]
pub(crate) enum Reading {
    /// A real number of 4 bytes, over UINT32.
    Real32,
    /// A real number of 8 bytes, over UINT64.
    Real64,
    /// A truth value of two bits that differ, over BITSET8.
    Antivalent8,
}

impl Reading {
    /// The reading of that name.
    pub(crate) fn named(name: &str) -> Option<Self> {
        match name {
            "REAL32" => Some(Reading::Real32),
            "REAL64" => Some(Reading::Real64),
            "ANTIVALENT8" => Some(Reading::Antivalent8),
            _ => None,
        }
    }

    /// What a file has to have for an element that is read so.
    pub(crate) fn wish(self) -> &'static str {
        match self {
            Reading::Real32 => "write type = \"UINT32\", as = \"REAL32\"",
            Reading::Real64 => "write type = \"UINT64\", as = \"REAL64\"",
            Reading::Antivalent8 => "write type = \"BITSET8\", as = \"ANTIVALENT8\"",
        }
    }

    /// Whether a value is the type over which it stands. The number 1 is that of BITSET8 and of
    /// BOOL8, and these names aren't one here.
    pub(crate) fn is_over(self, value: &Value) -> bool {
        match self {
            Reading::Real32 => kind(value) == Some(ElementKind::Uint32),
            Reading::Real64 => kind(value) == Some(ElementKind::Uint64),
            Reading::Antivalent8 => {
                kind(value) == Some(ElementKind::Bool8) && value.as_str() != Some("BOOL8")
            }
        }
    }
}
