//! The servlet of the guestbook.

ghost use Rattle.std.specs.Prelude.{◌≡◌, IfOk, IfSome, Ok, OnOk, codes, false, true};
ghost use Rattle.std.specs.Str.Parse.{signed_digits_value};
ghost use Rattle.sv_exchange.specs.Sessions.{is_in_role};
ghost use Rattle.sv_exchange.specs.Changing.{Reaches};
ghost use Rattle.guestbook_components.specs.Forms.{IsOfMember, IsSent, Removes, Writes, caller_name, value_of};
ghost use Rattle.guestbook_components.specs.Token.{is_own_form};

use crate::book::{Book, BookFault, Entry};
use crate::pages::{Member, book_page};
use crate::token::{is_own_form, token_of};
use crate::visits::Visits;
use sqlite::Alter;
use std::alloc::Global;
use sv_web::{
    Config, Exchange, Fault, Init, NoMemory, RedirectKind, Servlet, Step, Text, Verb, asked_verb,
    redirect, send_html, step_of,
};

/// Maximum length of an entry, in bytes of UTF-8.
const MAX_WORDS: usize = 4_000;

/// The role that may remove entries.
const ADMINISTRATOR: &str = "administrator";

/// Shows the book and handles its forms. The descriptor defines who may send which form.
#[derive(Drop)]
pub struct Guestbook<S: Alter> {
    pub book: Book<S>,
    pub visits: Visits,
}

impl<S: Alter + Drop> Servlet for Guestbook<S> {
    fn init(&mut self, _alloc: Global, _config: &Config) -> Init {
        Init::Ready
    }

    fn service(&mut self, alloc: Global, exchange: &mut Exchange, _turn: u32) -> Step {
        let done = match Form::at(exchange.path()) {
            Some(form) => take_form(alloc, &mut self.book, exchange, form),
            None => show_book(alloc, &mut self.book, self.visits.count(), exchange),
        };
        step_behind(alloc, done)
    }

    fn destroy(&mut self) {}
}

/// The purpose of a form.
#[derive(Clone, Copy)]
enum Form {
    Write,
    Remove,
    Leave,
}

impl Form {
    // Returns the form that is sent to this path.
    fn at(path: &str) -> Option<Form> {
        match path {
            "/write" => Some(Form::Write),
            "/remove" => Some(Form::Remove),
            "/leave" => Some(Form::Leave),
            _ => None,
        }
    }
}

// Returns the step after a page or a form: `Done`, or the step of its fault.
fn step_behind(alloc: Global, done: Result<(), Fault>) -> Step {
    match done {
        Ok(()) => Step::Done,
        Err(fault) => step_of(alloc, Err(fault)),
    }
}

// Sends the page of entries, if the method requests it.
fn show_book<S: Alter + Drop>(
    alloc: Global,
    book: &mut Book<S>,
    requests: u64,
    exchange: &mut Exchange,
) -> Result<(), Fault>
    ensures { Reaches exchange.old exchange.new }
{
    let Some(number) = page_asked_for(alloc, exchange)? else {
        return Ok(());
    };
    let entries = answer_of(alloc, book.newest_below(alloc, number))?;
    send_page(alloc, exchange, entries.as_slice(), requests)
}

// Returns the number below which the requested page begins, or none if the method is neither GET nor HEAD.
fn page_asked_for(alloc: Global, exchange: &mut Exchange) -> Result<Option<i64>, Fault>
    ensures { Reaches exchange.old exchange.new }
{
    match asked_verb(alloc, exchange, &[Verb::Get])? {
        Some(_) => Ok(Some(first_below(exchange)?)),
        None => Ok(None),
    }
}

// Sends the page of these entries for the user of the session.
fn send_page(
    alloc: Global,
    exchange: &mut Exchange,
    entries: &[Entry],
    requests: u64,
) -> Result<(), Fault>
    ensures { Reaches exchange.old exchange.new }
{
    let page = page_of(alloc, exchange, entries, requests)?;
    send_html(exchange, page.as_str())?;
    Ok(())
}

// Returns the page of these entries, with the forms of the user of the session.
fn page_of(
    alloc: Global,
    exchange: &Exchange,
    entries: &[Entry],
    requests: u64,
) -> Result<String, NoMemory> {
    let token = token_of(alloc, exchange)?;
    let reader = member_of(exchange, token.as_ref());
    book_page(alloc, entries, reader, requests)
}

// Returns the user of the session, if one is logged in.
fn member_of<'a>(exchange: &'a Exchange, token: Option<&'a Text>) -> Option<Member<'a>>
    ensures { IfSome result (IsOfMember exchange.now) }
{
    let caller = exchange.caller()?;
    let token = token?;
    Some(Member {
        name: caller.name.as_str(),
        is_administrator: exchange.is_user_in_role(ADMINISTRATOR),
        token: token.as_str(),
    })
}

// Returns the number below which the page begins: that of the query, or else the greatest number.
fn first_below(exchange: &Exchange) -> Result<i64, NoMemory> {
    let before = exchange.parameter("before")?;
    let before = before.as_ref().map_or("", Text::as_str);
    Ok(before.parse::<i64>().unwrap_or(i64::MAX))
}

// Handles the path of a form. A POST performs the action of the form. A GET, to which a login leads, does nothing. Both
// redirect to the book.
fn take_form<S: Alter + Drop>(
    alloc: Global,
    book: &mut Book<S>,
    exchange: &mut Exchange,
    form: Form,
) -> Result<(), Fault>
    ensures sent { ¬ IsSent exchange.old → book.new ≡ book.old }
    ensures kept { is_own_form exchange.old ≡ false → book.new ≡ book.old }
    ensures reached { Reaches exchange.old exchange.new }
{
    match asked_verb(alloc, exchange, &[Verb::Get, Verb::Post])? {
        None => return Ok(()),
        Some(Verb::Post) => obey(alloc, book, exchange, form)?,
        Some(_) => {}
    }
    redirect(exchange, RedirectKind::SeeOther, "/")?;
    Ok(())
}

// Performs the action of the form, if it has the token of its session.
fn obey<S: Alter + Drop>(
    alloc: Global,
    book: &mut Book<S>,
    exchange: &mut Exchange,
    form: Form,
) -> Result<(), Fault>
    ensures own { OnOk result (is_own_form exchange.old ≡ true) }
    ensures kept { is_own_form exchange.old ≡ false → book.new ≡ book.old }
    ensures reached { Reaches exchange.old exchange.new }
{
    if !is_own_form(alloc, exchange)? {
        return Err(error_of(alloc, 403, "This form is of another session."));
    }
    match form {
        Form::Write => write(alloc, book, exchange),
        Form::Remove => remove(alloc, book, exchange),
        Form::Leave => leave(exchange),
    }
}

// Logs the caller out.
fn leave(exchange: &mut Exchange) -> Result<(), Fault>
    ensures { Reaches exchange.old exchange.new }
{
    exchange.logout()?;
    Ok(())
}

// Writes an entry of the caller.
fn write<S: Alter + Drop>(
    alloc: Global,
    book: &mut Book<S>,
    exchange: &Exchange,
) -> Result<(), Fault>
    ensures { OnOk result (Writes S.Store exchange.now book.old.connection book.new.connection) }
{
    let words = words_of(alloc, exchange)?;
    let written = book.write(caller_name(exchange), exchange.moment(), words.as_str());
    answer_of(alloc, written)
}

// Returns the words of an entry that were sent, if they are not blank and not too long.
fn words_of(alloc: Global, exchange: &Exchange) -> Result<Text, Fault>
    ensures { IfOk result (λ words. words ≡ value_of (codes "words") exchange.now) }
{
    let words = value_of(alloc, exchange, "words")?;
    if words.as_str().trim().is_empty() || words.as_str().len() > MAX_WORDS {
        return Err(error_of(
            alloc,
            400,
            "An entry has 1 to 4000 bytes, and not blanks alone.",
        ));
    }
    Ok(words)
}

// Removes an entry for an administrator. The descriptor admits no one else, and the role is checked here again.
fn remove<S: Alter + Drop>(
    alloc: Global,
    book: &mut Book<S>,
    exchange: &Exchange,
) -> Result<(), Fault>
    ensures done { OnOk result (Removes S.Store exchange.now book.old.connection book.new.connection) }
    ensures kept { is_in_role ADMINISTRATOR.now exchange.now.caller ≡ false → book.new ≡ book.old }
{
    if !exchange.is_user_in_role(ADMINISTRATOR) {
        return Err(error_of(alloc, 403, "You take no entries out."));
    }
    let number = number_of(alloc, exchange)?;
    answer_of(alloc, book.remove(number))
}

// Returns the number of an entry that was sent.
fn number_of(alloc: Global, exchange: &Exchange) -> Result<i64, Fault>
    ensures { IfOk result (λ number. number ≡ signed_digits_value 10 (value_of (codes "number") exchange.now)) }
{
    let number = value_of(alloc, exchange, "number")?;
    match number.as_str().parse::<i64>() {
        Ok(number) => Ok(number),
        Err(_) => Err(error_of(alloc, 400, "This is no number of an entry.")),
    }
}

// Returns the error of this code, or out of memory if there is none for its text.
fn error_of(alloc: Global, code: u16, text: &str) -> Fault {
    match Text::copy_of(alloc, text) {
        Ok(text) => Fault::Error(code, text),
        Err(NoMemory) => Fault::NoMemory,
    }
}

// Returns the first value of this name, or an empty text if none was sent.
fn value_of(alloc: Global, exchange: &Exchange, name: &str) -> Result<Text, NoMemory>
    ensures { IfOk result (λ value. value ≡ value_of name.now exchange.now) }
{
    match exchange.parameter(name)? {
        Some(value) => Ok(value),
        None => Text::copy_of(alloc, ""),
    }
}

// Returns the name of the caller, or an empty text if there is none.
fn caller_name(exchange: &Exchange) -> &str
    ensures { result.now ≡ caller_name exchange.now }
{
    match exchange.caller() {
        Some(caller) => caller.name.as_str(),
        None => "",
    }
}

// Returns the answer of the book. A fault of the book fails only this request.
fn answer_of<T>(alloc: Global, answer: Result<T, BookFault>) -> Result<T, Fault>
    ensures { IfOk result (λ value. answer ≡ Ok value) }
{
    match answer {
        Ok(value) => Ok(value),
        Err(BookFault) => Err(Fault::Failed(
            Text::copy_of(alloc, "BookFault")?,
            Text::copy_of(alloc, "The book cannot be read or written.")?,
        )),
    }
}
