//! The meaning of script lines.

use std::alloc::Global;
use sv_constraints::{Auth, Collection, Methods};
use sv_policy::{Edit, NewConstraint};
use sv_rows::{Asks, Draft, Strays, cell, hold, unescaped};
use sv_script::{LineFault, ScriptLine, read_line};
use sv_text::{NoMemory, Text};

/// Answers with the meaning of a line. The bytes of a piece are in angle brackets.
struct Lines;

impl Asks for Lines {
    const QUESTION: usize = 1;

    fn answer(&self, alloc: Global, row: &str, answer: &mut Vec<u8>) -> Result<(), NoMemory> {
        let line = unescaped(alloc, cell(row, 0))?;
        let mut told = Draft::new(alloc);
        match read_line(alloc, line.as_slice()) {
            Ok(asked) => tell(&mut told, &asked),
            Err(LineFault::Unreadable) => told.add("unreadable"),
            Err(LineFault::NoMemory) => told.fail(),
        }
        told.add_to(answer)
    }
}

fn tell(told: &mut Draft, asked: &ScriptLine) {
    match asked {
        ScriptLine::Nothing => told.add("nothing"),
        ScriptLine::Open(connection) => tell_number(told, "open ", *connection),
        ScriptLine::Send(connection, bytes) => {
            tell_number(told, "send ", *connection);
            told.add(" <");
            told.add_bytes(bytes.as_slice());
            told.add(">");
        }
        ScriptLine::End(connection) => tell_number(told, "end ", *connection),
        ScriptLine::Lost(connection) => tell_number(told, "lost ", *connection),
        ScriptLine::Tick(moment) => tell_number(told, "tick ", *moment),
        ScriptLine::Edit(context, edit) => {
            tell_text(told, "edit", context.as_bytes());
            tell_edit(told, edit);
        }
    }
}

fn tell_text(told: &mut Draft, word: &str, text: &[u8]) {
    told.add(word);
    told.add(" <");
    told.add_bytes(text);
    told.add(">");
}

fn tell_edit(told: &mut Draft, edit: &Edit) {
    match edit {
        Edit::Append(addition) => tell_addition(told, addition),
        Edit::Withdraw(number) => tell_number(told, " withdraw ", *number),
    }
}

fn tell_addition(told: &mut Draft, addition: &NewConstraint) {
    for collection in addition.collections.as_slice() {
        tell_collection(told, collection);
    }
    match &addition.auth {
        Auth::Absent => told.add(" open"),
        Auth::Roles(roles) => tell_names(told, " roles", roles.as_slice()),
    }
}

fn tell_collection(told: &mut Draft, collection: &Collection) {
    for pattern in collection.patterns.as_slice() {
        tell_text(told, " append", pattern.text().as_bytes());
    }
    match &collection.methods {
        Methods::All => told.add(" all"),
        Methods::Only(names) => tell_names(told, " only", names.as_slice()),
        Methods::Except(names) => tell_names(told, " except", names.as_slice()),
    }
}

fn tell_names(told: &mut Draft, word: &str, names: &[Text]) {
    told.add(word);
    for name in names {
        tell_text(told, "", name.as_bytes());
    }
}

fn tell_number(told: &mut Draft, word: &str, number: u64) {
    told.add(word);
    told.add_shown(&number);
}

/// The columns: line; its meaning.
const NUMBERED: &str = r#"
open 1                       | open 1
open 0                       | open 0
end 3                        | end 3
lost 4                       | lost 4
tick 1700000000              | tick 1700000000
-- the value counts, not its digits
open 007                     | open 7
open 00000000000000000000001 | open 1
-- the greatest number of 64 bits, and the one above it
open 18446744073709551615    | open 18446744073709551615
open 18446744073709551616    | unreadable
end 18446744073709551615     | end 18446744073709551615
end 18446744073709551616     | unreadable
lost 18446744073709551616    | unreadable
tick 18446744073709551615    | tick 18446744073709551615
tick 18446744073709551616    | unreadable
send 18446744073709551615 a  | send 18446744073709551615 <a>
send 18446744073709551616 a  | unreadable
open 100000000000000000000   | unreadable
-- a number is decimal digits alone
open                         | unreadable
open\x20                     | unreadable
open +1                      | unreadable
open -1                      | unreadable
open 0x1                     | unreadable
open 1a                      | unreadable
open a                       | unreadable
open 1_000                   | unreadable
open \xD9\xA1                | unreadable
-- fields stand between single blanks, and there is none behind the number
open  1                      | unreadable
open 1\x20                   | unreadable
open 1 2                     | unreadable
open\t1                      | unreadable
end 1 2                      | unreadable
tick 1\x20                   | unreadable
-- a carriage return belongs to the line
open 1\r                     | unreadable
"#;

#[test]
fn a_number_is_decimal_and_fits(rt: HostRuntime) -> Result<(), Strays> {
    hold(&rt, &[NUMBERED], &Lines)
}

/// The columns: line; its meaning.
const WORDS: &str = r##"
""               | nothing
#                | nothing
# a comment      | nothing
#open 1          | nothing
##               | nothing
-- a blank is no comment
\x20             | unreadable
\x20# a comment  | unreadable
\x20open 1       | unreadable
\r               | unreadable
-- no other word, and no other case
Open 1           | unreadable
OPEN 1           | unreadable
opened 1         | unreadable
ope 1            | unreadable
close 1          | unreadable
"open" 1         | unreadable
\x00             | unreadable
"##;

#[test]
fn a_line_is_empty_or_a_comment_or_begins_with_a_keyword(rt: HostRuntime) -> Result<(), Strays> {
    hold(&rt, &[WORDS], &Lines)
}

/// The columns: line; its meaning.
const PIECES: &str = r#"
send 1 a              | send 1 <a>
-- the text is the rest of the line, blanks and a carriage return included
send 1 a b            | send 1 <a b>
send 1  a             | send 1 <\x20a>
send 1 a\x20          | send 1 <a\x20>
send 1 a\r            | send 1 <a\r>
send 1 # a            | send 1 <# a>
-- it may be empty behind its blank
send 1\x20            | send 1 <>
send 1                | unreadable
send                  | unreadable
send  1 a             | unreadable
send x a              | unreadable
send a                | unreadable
-- escapes
send 1 a\\r\\nb       | send 1 <a\r\nb>
send 1 \\\\           | send 1 <\\>
send 1 \\\\n          | send 1 <\\n>
send 1 \\\\\\n        | send 1 <\\\n>
send 1 \\x41\\x61     | send 1 <Aa>
send 1 \\xFF\\xff\\xfF\\x00 | send 1 <\xFF\xFF\xFF\x00>
send 1 \\x0d0a        | send 1 <\r0a>
-- other bytes are themselves
send 1 \xFF\x00\x7F   | send 1 <\xFF\x00\x7F>
send 1 %41            | send 1 <%41>
-- any other backslash
send 1 \\             | unreadable
send 1 a\\            | unreadable
send 1 \\\\\\         | unreadable
send 1 \\x            | unreadable
send 1 \\x4           | unreadable
send 1 \\x4g          | unreadable
send 1 \\xg4          | unreadable
send 1 \\X41          | unreadable
send 1 \\t            | unreadable
send 1 \\0            | unreadable
send 1 \\R            | unreadable
send 1 \\"            | unreadable
send 1 ok\\r\\q       | unreadable
"#;

#[test]
fn a_piece_is_the_rest_of_its_line(rt: HostRuntime) -> Result<(), Strays> {
    hold(&rt, &[PIECES], &Lines)
}

/// The columns: line; its meaning, which is the context and the constraint to append or withdraw.
const EDITS: &str = r#"
append / /q * open            | edit <> append </q> all open
append  /q * open             | edit <> append </q> all open
append /two /q GET,PUT a,b    | edit </two> append </q> only <GET> <PUT> roles <a> <b>
append / /q !GET nobody       | edit <> append </q> except <GET> roles
append /  * open              | edit <> append <> all open
append / *.x POST **          | edit <> append <*.x> only <POST> roles <**>
-- a star among names, and a mark among omitted ones, are names
append / /q *,GET *           | edit <> append </q> only <*> <GET> roles <*>
append / /q !!,* open         | edit <> append </q> except <!> <*> open
-- the words of roles are words where they are the whole text, which is the rest of the line
append / /q * open,nobody     | edit <> append </q> all roles <open> <nobody>
append / /q * a b,c           | edit <> append </q> all roles <a b> <c>
append / /q * open\x20        | edit <> append </q> all roles <open\x20>
append /\xC3\xA9 /\xC3\xA9 * \xC3\xA9 | edit </\xC3\xA9> append </\xC3\xA9> all roles <\xC3\xA9>
withdraw / 2                  | edit <> withdraw 2
withdraw  2                   | edit <> withdraw 2
withdraw /two 007             | edit </two> withdraw 7
withdraw / 18446744073709551615 | edit <> withdraw 18446744073709551615
-- names at their limits
append / /q \{15*A} \{64*a}    | edit <> append </q> only <\{15*A}> roles <\{64*a}>
append / /q \{16*A} a         | unreadable
append / /q * \{65*a}         | unreadable
-- a control character is in no role, so that a line that ends in CR LF is no other line
append / /q * nobody\x0D       | unreadable
append / /q * a,open\x0D       | unreadable
append / /q * \x00             | unreadable
append / /q * a\x1F,b          | unreadable
append / /q * \x7F             | unreadable
append / /q ! a               | unreadable
append / /q GET, a            | unreadable
append / /q * a,              | unreadable
append / q * a                | unreadable
append / /q * \xFF            | unreadable
withdraw \xFF 1               | unreadable
withdraw /                    | unreadable
"#;

#[test]
fn a_line_edits_the_constraints_of_a_context(rt: HostRuntime) -> Result<(), Strays> {
    hold(&rt, &[EDITS], &Lines)
}
