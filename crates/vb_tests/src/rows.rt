// How a test fails.
use std::process::Abort;

/// Fails the test with what is told of a row, where something else came than the row says.
pub(crate) fn none_other<R: Abort>(rt: &R, told: Option<String>) {
    if let Some(told) = told {
        panic!(rt; "{told}");
    }
}
