//! The page of the entries, as HTML.

use crate::book::{Entry, PAGE_LEN};
use crate::paragraph::push_paragraph;
use httpdate::HttpDate;
use std::alloc::{AllocError, Global};
use std::str;
use sv_web::{NoMemory, escape_html};

/// A logged-in user that reads the page.
#[derive(Clone, Copy)]
pub struct Member<'a> {
    /// The name of the user.
    pub name: &'a str,
    /// Whether the user may remove entries.
    pub is_administrator: bool,
    /// The token that each form of this session sends back.
    pub token: &'a str,
}

/// Returns the page of these entries, with the forms that its reader may send and the number of requests since the
/// start.
///
/// # Errors
/// [`NoMemory`]: out of memory.
pub fn book_page(
    alloc: Global,
    entries: &[Entry],
    reader: Option<Member<'_>>,
    requests: u64,
) -> Result<String, NoMemory> {
    let mut page = String::new(alloc);
    push_page(alloc, &mut page, entries, reader, requests)?;
    Ok(page)
}

// Appends the parts of the page. The page is borrowed, so that a part that fails does not have to drop it.
fn push_page(
    alloc: Global,
    page: &mut String,
    entries: &[Entry],
    reader: Option<Member<'_>>,
    requests: u64,
) -> Result<(), NoMemory> {
    page.push_str(HEAD)?;
    match reader {
        Some(member) => push_forms(alloc, page, member)?,
        None => page.push_str(INVITATION)?,
    }
    push_entries(alloc, page, entries, reader)?;
    push_older(alloc, page, entries)?;
    push_made(
        page,
        format!(in alloc;
            "<footer>{requests} requests since the start</footer>\n</main>\n</html>\n"
        ),
    )
}

// Appends a formatted text, if there was memory for it.
fn push_made(page: &mut String, made: Result<String, AllocError>) -> Result<(), NoMemory> {
    let made = made?;
    page.push_str(made.as_str())?;
    Ok(())
}

/// The page up to its heading.
const HEAD: &str = r#"<!doctype html>
<html lang="en">
<meta charset="utf-8">
<meta name="viewport" content="width=device-width, initial-scale=1">
<link rel="stylesheet" href="/style.css">
<title>Guestbook</title>
<main>
<h1><a href="/">Guestbook</a></h1>
"#;

/// The text shown instead of forms if no user is logged in.
const INVITATION: &str =
    r#"<p class="greeting">Members write here. <a class="button" href="/write">Log in</a></p>
"#;

// Appends the forms of a member.
fn push_forms(alloc: Global, page: &mut String, member: Member<'_>) -> Result<(), NoMemory> {
    let name = escape_html(alloc, member.name)?;
    let name = name.as_str();
    let token = member.token;
    push_made(
        page,
        format!(in alloc;
            r#"<form class="greeting" method="post" action="/leave">
<input type="hidden" name="token" value="{token}">
<span>You are <b>{name}</b>.</span> <button class="plain">Log out</button>
</form>
<form class="card" method="post" action="/write">
<input type="hidden" name="token" value="{token}">
<label>Your entry <textarea name="words" rows="3" maxlength="1000" required></textarea></label>
<button>Write</button>
</form>
"#
        ),
    )
}

// Appends the entries, newest first.
fn push_entries(
    alloc: Global,
    page: &mut String,
    entries: &[Entry],
    reader: Option<Member<'_>>,
) -> Result<(), NoMemory> {
    page.push_str("<ol class=\"entries\">\n")?;
    for entry in entries {
        push_entry(alloc, page, entry, reader)?;
    }
    page.push_str("</ol>\n")?;
    Ok(())
}

// Appends an entry, with a form to remove it if the reader is an administrator.
fn push_entry(
    alloc: Global,
    page: &mut String,
    entry: &Entry,
    reader: Option<Member<'_>>,
) -> Result<(), NoMemory> {
    page.push_str("<li class=\"card\">\n")?;
    push_paragraph(alloc, page, "words", entry.words.as_str())?;
    page.push_str("<div class=\"from\">\n")?;
    push_paragraph(alloc, page, "author", entry.author.as_str())?;
    push_date(page, entry.moment)?;
    if let Some(member) = reader {
        push_removal(alloc, page, entry.number, member)?;
    }
    page.push_str("</div>\n</li>\n")?;
    Ok(())
}

// Appends the day of a time, such as `25 Nov 2026`: the middle of a Date field's value (RFC 9110, section 5.6.7).
fn push_date(page: &mut String, moment: i64) -> Result<(), NoMemory> {
    let Ok(seconds) = u64::try_from(moment) else {
        return Ok(());
    };
    let Ok(date) = HttpDate::from_unix_secs(seconds) else {
        return Ok(());
    };
    let date = date.to_bytes();
    if let Ok(day) = str::from_utf8(&date[5..16]) {
        page.push_str("<time>")?;
        page.push_str(day)?;
        page.push_str("</time>\n")?;
    }
    Ok(())
}

// Appends the form with which an administrator removes an entry.
fn push_removal(
    alloc: Global,
    page: &mut String,
    number: i64,
    member: Member<'_>,
) -> Result<(), NoMemory> {
    if !member.is_administrator {
        return Ok(());
    }
    let token = member.token;
    push_made(
        page,
        format!(in alloc;
            r#"<form method="post" action="/remove">
<input type="hidden" name="token" value="{token}">
<button class="plain" name="number" value="{number}">Remove</button>
</form>
"#
        ),
    )
}

// Appends a link to older entries, if the page is full.
fn push_older(alloc: Global, page: &mut String, entries: &[Entry]) -> Result<(), NoMemory> {
    if entries.len() < PAGE_LEN {
        return Ok(());
    }
    let Some(last) = entries.last() else {
        return Ok(());
    };
    let number = last.number;
    push_made(
        page,
        format!(in alloc; "<p><a href=\"/?before={number}\">Older entries</a></p>\n"),
    )
}
