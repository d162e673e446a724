//! Arguments and rows of test cases, which are given as text.

use std::alloc::Global;

/// A row: its table, its key and its value.
pub type RowValue = (u8, u64, u64);

/// The numbers of a text. The answer is none, here and below, where memory is wanting or the text has something else.
pub fn words_of(alloc: Global, text: &str) -> Option<Vec<u64>> {
    let mut words = Vec::new(alloc);
    for word in text.split_whitespace() {
        words.push(word.parse().ok()?).ok()?;
    }
    Some(words)
}

/// A row that is given as `TABLE:KEY=VALUE`.
fn row_value(text: &str) -> Option<RowValue> {
    let (table, rest) = text.split_once(':')?;
    let (key, value) = rest.split_once('=')?;
    Some((table.parse().ok()?, key.parse().ok()?, value.parse().ok()?))
}

/// The rows of a text, each as `TABLE:KEY=VALUE`.
pub fn row_values(alloc: Global, text: &str) -> Option<Vec<RowValue>> {
    let mut rows = Vec::new(alloc);
    for row in text.split_whitespace() {
        rows.push(row_value(row)?).ok()?;
    }
    Some(rows)
}
