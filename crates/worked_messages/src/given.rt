// The comparison of a found value with the wanted one.
use std::fmt::Debug;
use std::process::Abort;

/// Ends the test if the two differ, and says in which case.
pub(crate) fn assert_same<T: PartialEq + Debug + Drop, C: Debug + Drop>(
    rt: &impl Abort,
    found: T,
    wanted: T,
    case: C,
) {
    assert_eq!(rt; found, wanted, "{case:?}");
}
