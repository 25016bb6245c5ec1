// Compares a result with what is expected. A call of this function costs a caller's proof less than an assertion does.
// For the same reason the tests use `expect` on results of allocations: at each `?`, a proof has to drop all live
// values.
use std::fmt::Debug;
use std::process::Abort;

// Fails unless both are equal. If several are compared in a loop, both contain the index or the case.
pub(crate) fn expect_same<T: PartialEq + Debug + Drop>(rt: &impl Abort, found: T, expected: T) {
    assert_eq!(rt; found, expected);
}
