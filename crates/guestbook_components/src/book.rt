//! The entries, in a SQLite file.

ghost use Rattle.std.specs.Prelude.{◌≡◌, [], ◌∷◌, IfOk, OnOk, pos};
ghost use Rattle.sqlite.specs.Held.{state};
ghost use Rattle.sqlite.specs.State.{Executes, HasCleanDisk};
ghost use Rattle.sqlite.specs.declared.types.Value.TheVariants.{Int, Text};
ghost use Rattle.guestbook_components.specs.Book.{HasRun, IsEntryOf, entry_values};

use sqlite::{Alter, Connection, Error, Row, params};
use std::alloc::Global;

/// Maximum number of entries on a page.
pub const PAGE_LEN: usize = 50;

/// The table of entries. Numbers are never reused, so that a form on an old page names no other entry.
const TABLE: &str = "CREATE TABLE IF NOT EXISTS entry (
    number INTEGER PRIMARY KEY AUTOINCREMENT,
    author TEXT NOT NULL,
    moment INTEGER NOT NULL,
    words TEXT NOT NULL
) STRICT";

/// Inserts an entry.
const INSERT: &str = "INSERT INTO entry (author, moment, words) VALUES (?1, ?2, ?3)";

/// Deletes the entry of a number.
const DELETE: &str = "DELETE FROM entry WHERE number = ?1";

/// Selects the entries below a number, newest first, up to a limit.
const SELECT: &str =
    "SELECT number, author, moment, words FROM entry WHERE number < ?1 ORDER BY number DESC LIMIT ?2";

/// An entry, as its author wrote it.
#[derive(Drop)]
pub struct Entry {
    /// The number, which selects the entry for removal. Later entries have greater numbers.
    pub number: i64,
    /// The name of the user that wrote it.
    pub author: String,
    /// The time at which it was written, in seconds since 1970.
    pub moment: i64,
    /// The text of the entry.
    pub words: String,
}

/// The database could not be read or written, or memory ran out. The operation was not performed.
#[derive(Debug, Drop)]
pub struct BookFault;

impl From<Error> for BookFault {
    fn from(_error: Error) -> BookFault {
        BookFault
    }
}

/// The acknowledged entries.
#[derive(Drop)]
pub struct Book<S: Alter> {
    connection: Connection<S>,
}

impl<S: Alter + Drop> Book<S> {
    /// Opens the book in this database, and creates its table if it is missing.
    ///
    /// # Errors
    /// [`BookFault`]: the database is not a book, or cannot be written.
    pub fn new(mut connection: Connection<S>) -> Result<Book<S>, BookFault> {
        connection.execute_batch(TABLE)?;
        Ok(Book { connection })
    }

    /// Writes an entry with its time in seconds since 1970. When this returns, the entry is in the file, even if the
    /// program then ends.
    ///
    /// # Errors
    /// [`BookFault`]: it was not written.
    pub fn write(&mut self, author: &str, moment: u64, words: &str) -> Result<(), BookFault>
        ensures { OnOk result (HasRun S.Store INSERT.now (entry_values author.now moment words.now) self.old.connection self.new.connection) }
    {
        let seconds = seconds_of(moment)?;
        insert(&mut self.connection, author, seconds, words)?;
        Ok(())
    }

    /// Removes the entry of this number, if there is one.
    ///
    /// # Errors
    /// [`BookFault`]: it was not removed.
    pub fn remove(&mut self, number: i64) -> Result<(), BookFault>
        ensures { OnOk result (HasRun S.Store DELETE.now (Int number ∷ []) self.old.connection self.new.connection) }
    {
        delete(&mut self.connection, number)?;
        Ok(())
    }

    /// Returns the newest entries with numbers below this one, newest first, and at most [`PAGE_LEN`].
    ///
    /// # Errors
    /// [`BookFault`]: they could not be read.
    pub fn newest_below(&mut self, alloc: Global, number: i64) -> Result<Vec<Entry>, BookFault> {
        let found = self
            .connection
            .query_all(SELECT, params![number, PAGE_LEN as i64]);
        entries_of(alloc, found)
    }
}

// Converts seconds to the type of the column.
fn seconds_of(moment: u64) -> Result<i64, BookFault>
    ensures { IfOk result (λ seconds. seconds ≡ pos moment) }
{
    match i64::try_from(moment) {
        Ok(seconds) => Ok(seconds),
        Err(_) => Err(BookFault),
    }
}

// Inserts an entry into the table.
fn insert<S: Alter>(
    connection: &mut Connection<S>,
    author: &str,
    seconds: i64,
    words: &str,
) -> Result<usize, Error>
    ensures { HasCleanDisk (state S.Store connection.new) → Executes INSERT.now (Text author.now ∷ Int seconds ∷ Text words.now ∷ [])
        (state S.Store connection.old) (state S.Store connection.new) result }
{
    connection.execute(INSERT, params![author, seconds, words])
}

// Deletes the entry of this number from the table.
fn delete<S: Alter>(connection: &mut Connection<S>, number: i64) -> Result<usize, Error>
    ensures { HasCleanDisk (state S.Store connection.new) → Executes DELETE.now (Int number ∷ [])
        (state S.Store connection.old) (state S.Store connection.new) result }
{
    connection.execute(DELETE, params![number])
}

// Returns the entries of the rows found.
fn entries_of(alloc: Global, found: Result<Vec<Row>, Error>) -> Result<Vec<Entry>, BookFault> {
    let found = found?;
    let mut entries = Vec::new(alloc);
    push_entries(&mut entries, found.as_slice())?;
    Ok(entries)
}

// Appends the entries of these rows.
fn push_entries(entries: &mut Vec<Entry>, rows: &[Row]) -> Result<(), BookFault> {
    for row in rows {
        push_entry(entries, entry_of(row)?)?;
    }
    Ok(())
}

// Appends an entry.
fn push_entry(entries: &mut Vec<Entry>, entry: Entry) -> Result<(), BookFault> {
    match entries.push(entry) {
        Ok(()) => Ok(()),
        Err(_) => Err(BookFault),
    }
}

// Returns the entry of a row.
fn entry_of(row: &Row) -> Result<Entry, BookFault>
    ensures { IfOk result (IsEntryOf row.now) }
{
    Ok(Entry {
        number: row.get(0)?,
        author: row.get(1)?,
        moment: row.get(2)?,
        words: row.get(3)?,
    })
}
