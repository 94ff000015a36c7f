//! Entries of a journal as the rows write them.

use sv_journal::Journal;
use sv_rows::Draft;

/// Adds the entries of a journal without their first two words, which are the same for all entries of a kind.
pub fn add_entries(text: &mut Draft, alloc: std::alloc::Global, journal: &Journal) {
    let mut separator = "";
    for entry in journal.entries() {
        text.add(separator);
        separator = ", ";
        match format!(in alloc; "{entry}") {
            Ok(line) => text.add(line.splitn(3, ' ').nth(2).unwrap_or("")),
            Err(_) => text.fail(),
        }
    }
}
