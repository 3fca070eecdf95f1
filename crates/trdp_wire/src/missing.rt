//! The files of a wire's ports that are gone.

/// The files of a wire's ports that are gone, so that nobody can connect there any more.
#[derive(Clone, Copy, Debug, Default, PartialEq, Eq)]
pub struct Missing<'a> {
    /// The path of the first one; None if none is gone.
    pub first: Option<&'a str>,
    /// How many are gone.
    pub count: usize,
}
