// What the rows of the tables tell.
use crate::{maps, states};
use std::alloc::Global;
use std::process::Abort;

/// What the rows of a table tell.
#[derive(Clone, Copy)]
pub(crate) enum Rows {
    Filled,
    Greatest,
}

/// Whether a row is right. None where it can't be read, or there is no memory.
fn is_right(alloc: Global, rows: Rows, row: &str) -> Option<bool> {
    match rows {
        Rows::Filled => maps::filled_row(alloc, row),
        Rows::Greatest => states::greatest_row(alloc, row),
    }
}

/// Fails the test at the first row of the table that is not right, and tells the row.
pub(crate) fn check<R: Abort>(rt: &R, alloc: Global, rows: Rows, table: &str) {
    for row in table.lines() {
        assert!(rt; is_right(alloc, rows, row) == Some(true), "{row}");
    }
}

/// What stands before and after the first `between` of a text.
pub(crate) fn halves<'a>(text: &'a str, between: &str) -> Option<(&'a str, &'a str)> {
    text.split_once(between)
}

/// A value in a box, where there is one and memory for it.
pub(crate) fn boxed<T: Drop>(alloc: Global, value: Option<T>) -> Option<Box<T>> {
    Box::new(alloc, value?).ok()
}
