//! The elements that datasets are made of.

ghost use Rattle.std.specs.Prelude.{◌≡◌, ◌==◌, ◌&&◌};
ghost use Rattle.trdp_dataset.specs.Elements.{width_len, form_of, is_count, nested_id};

/// How many bytes a number has in a telegram (IEC 61375-2-3).
#[derive(Clone, Copy, Debug, PartialEq, Eq)]
pub enum Width {
    /// 1 byte.
    One,
    /// 2 bytes.
    Two,
    /// 4 bytes.
    Four,
    /// 8 bytes.
    Eight,
}

impl Width {
    /// The bytes, 1 to 8.
    pub fn len(self) -> usize
        ensures value { result ≡ width_len self }
    {
        match self {
            Width::One => 1,
            Width::Two => 2,
            Width::Four => 4,
            Width::Eight => 8,
        }
    }
}

/// What the bytes of a type are (IEC 61375-2-3). Numbers are big-endian; that values are packed
/// without alignment is the profile's rule.
#[derive(Clone, Copy, Debug, PartialEq, Eq)]
pub enum Form {
    /// An unsigned number.
    Unsigned(Width),
    /// A number in two's complement.
    Signed(Width),
    /// 4 bytes of seconds and 2 of ticks.
    Time48,
    /// 4 bytes of seconds and 4 of microseconds.
    Time64,
    /// A value of the dataset of that identifier.
    Nested(u32),
}

/// The type of an element: one of the basic types of IEC 61375-2-3 other than the reals, or a
/// dataset.
#[derive(Clone, Copy, Debug, PartialEq, Eq)]
pub enum ElementKind {
    /// BOOL8 and BITSET8, type 1.
    Bool8,
    /// CHAR8, type 2.
    Char8,
    /// UTF16, type 3.
    Utf16,
    /// INT8, type 4.
    Int8,
    /// INT16, type 5.
    Int16,
    /// INT32, type 6.
    Int32,
    /// INT64, type 7.
    Int64,
    /// UINT8, type 8.
    Uint8,
    /// UINT16, type 9.
    Uint16,
    /// UINT32, type 10.
    Uint32,
    /// UINT64, type 11.
    Uint64,
    /// TIMEDATE32, type 14.
    Timedate32,
    /// TIMEDATE48, type 15.
    Timedate48,
    /// TIMEDATE64, type 16.
    Timedate64,
    /// The dataset of that identifier, 31 and above.
    Nested(u32),
}

impl ElementKind {
    /// What the bytes of the type are.
    pub fn form(self) -> Form
        ensures value { result ≡ form_of self }
    {
        match self {
            ElementKind::Bool8 | ElementKind::Char8 | ElementKind::Uint8 => {
                Form::Unsigned(Width::One)
            }
            ElementKind::Utf16 | ElementKind::Uint16 => Form::Unsigned(Width::Two),
            ElementKind::Uint32 | ElementKind::Timedate32 => Form::Unsigned(Width::Four),
            ElementKind::Uint64 => Form::Unsigned(Width::Eight),
            ElementKind::Int8 => Form::Signed(Width::One),
            ElementKind::Int16 => Form::Signed(Width::Two),
            ElementKind::Int32 => Form::Signed(Width::Four),
            ElementKind::Int64 => Form::Signed(Width::Eight),
            ElementKind::Timedate48 => Form::Time48,
            ElementKind::Timedate64 => Form::Time64,
            ElementKind::Nested(id) => Form::Nested(id),
        }
    }
}

/// One element of a dataset (IEC 61375-2-3).
#[derive(Clone, Copy, Debug, PartialEq, Eq)]
pub struct Element {
    /// The type of its values.
    pub kind: ElementKind,
    /// How many values it has: 1 is a single value, more an array of that many, and 0 an array of
    /// as many as the element before it says.
    pub size: u16,
}

impl Element {
    /// The dataset that this element is of; None of a basic type.
    pub fn nested(self) -> Option<u32>
        ensures value { result ≡ nested_id (form_of self.kind) }
    {
        match self.kind.form() {
            Form::Nested(id) => Some(id),
            _ => None,
        }
    }

    /// Whether the value of this element is the number of items of an array of size 0 after it: a
    /// single UINT8, UINT16 or UINT32.
    pub fn is_count(self) -> bool
        ensures value { result ≡ is_count self }
    {
        self.size == 1
            && matches!(
                self.kind,
                ElementKind::Uint8 | ElementKind::Uint16 | ElementKind::Uint32
            )
    }
}
