// Compares a result with what is expected. A call of this function costs a caller's proof less than an assertion does.
// For the same reason the tests use `expect` on results of allocations: at each `?`, a proof has to drop all live
// values.
use std::alloc::Global;
use std::fmt::{Debug, Display};
use std::process::Abort;

// Fails unless both are equal. If several are compared in a loop, both contain the index or the case.
pub(crate) fn expect_same<T: PartialEq + Debug + Drop>(rt: &impl Abort, found: T, expected: T) {
    assert_eq!(rt; found, expected);
}

pub(crate) fn expect_text(rt: &impl Abort, alloc: Global, fault: &impl Display, text: &str) {
    let shown = format!(in alloc; "{fault}").expect(rt, "memory");
    expect_same(rt, shown.as_str(), text);
}
