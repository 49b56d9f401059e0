//! Comparisons as calls. A test is proved to be safe before it runs, and a call costs that proof a
//! twentieth of what the macro costs.

use std::fmt::{Debug, Display};
use std::process::Abort;

/// What was found is what is wanted, in the case that `at` names.
pub(crate) fn same<T: PartialEq + Debug + Drop>(
    rt: &impl Abort,
    at: impl Display + Drop,
    found: T,
    wanted: T,
) {
    assert_eq!(rt; found, wanted, "{at}");
}
