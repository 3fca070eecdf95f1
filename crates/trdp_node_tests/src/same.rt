//! The comparison of each test, so that the text of a failure is proved once for all of them.

use std::fmt::{Debug, Display};
use std::process::Abort;

/// Asserts that what was found is what was expected; the text of a failure names the case.
pub fn same<T: PartialEq + Debug + Copy>(
    rt: &(impl Abort + AllocGlobal),
    case: impl Display + Copy,
    found: T,
    wanted: T,
) {
    assert_eq!(rt; found, wanted, "at {case}");
}
