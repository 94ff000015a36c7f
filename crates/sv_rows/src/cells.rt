//! The form of test tables: one row per line, its cells separated by bars.

/// Returns whether a line of a table is a row: neither empty nor a comment, which begins with `--`.
pub fn is_row(line: &str) -> bool {
    !matches!(line.as_bytes(), [] | [b'-', b'-', ..])
}

/// Returns the cell of a row at this place, counted from 0, without the blanks around it. `""` is the empty text.
pub fn cell(row: &str, place: usize) -> &str {
    shown(row.split('|').nth(place).unwrap_or(""))
}

/// Returns the text of a cell.
pub fn shown(cell: &str) -> &str {
    let text = cell.trim();
    if text == "\"\"" { "" } else { text }
}
