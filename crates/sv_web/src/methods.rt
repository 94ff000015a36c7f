//! The response to a request by its method.

ghost use Rattle.std.specs.Prelude.{◌≡◌, IfOk, OnOk, None};
ghost use Rattle.sv_exchange.specs.Changing.{Reaches};
ghost use Rattle.sv_text.specs.Gives.{Gives, GivesAnswer};
ghost use Rattle.sv_web.specs.Answering.{told_fault};
ghost use Rattle.sv_web.specs.Methods.{allow_text, answers, asked_answer, asked_for, left_without, names_of, refusal_answer, refusal_status};

use crate::fault::Fault;
use std::alloc::Global;
use sv_component::Exchange;
use sv_text::{NoMemory, Text};

/// A method that a servlet supports (RFC 9110, section 9.3, and RFC 5789).
#[derive(Clone, Copy)]
pub enum Verb {
    /// GET and HEAD. The server omits the body for HEAD.
    Get,
    /// POST.
    Post,
    /// PUT.
    Put,
    /// PATCH.
    Patch,
    /// DELETE.
    Delete,
}

impl Verb {
    // Returns whether a request of this method selects the verb.
    fn answers(self, method: &str) -> bool
        ensures { result ≡ answers method.now self }
    {
        match self {
            Verb::Get => method == "GET" || method == "HEAD",
            Verb::Post => method == "POST",
            Verb::Put => method == "PUT",
            Verb::Patch => method == "PATCH",
            Verb::Delete => method == "DELETE",
        }
    }

    // Returns the methods that select the verb, as part of a list.
    fn names(self) -> &'static str
        ensures { result.now ≡ names_of self }
    {
        match self {
            Verb::Get => "GET, HEAD, ",
            Verb::Post => "POST, ",
            Verb::Put => "PUT, ",
            Verb::Patch => "PATCH, ",
            Verb::Delete => "DELETE, ",
        }
    }
}

/// Returns the first allowed verb that the request's method selects; HEAD selects GET (Jakarta Servlet 6.0, section
/// 2.1.1). If there is none, the response is made, and the servlet is done. It has the field `allow` and the status 204
/// for OPTIONS, or else 405.
///
/// # Errors
/// [`Fault::NoMemory`]: out of memory; the status may have changed.
pub fn asked_verb(
    alloc: Global,
    exchange: &mut Exchange,
    allowed: &[Verb],
) -> Result<Option<Verb>, Fault>
    ensures asked { IfOk result (λ verb. verb ≡ asked_for exchange.old.method allowed.now) }
    ensures left { IfOk result (λ verb. exchange.new ≡ left_without verb allowed.now exchange.old) }
    ensures answered { Gives told_fault result (asked_answer (asked_for exchange.old.method allowed.now) allowed.now exchange.old) }
    ensures reached { Reaches exchange.old exchange.new }
{
    let asked = asked_for(exchange.method(), allowed);
    if asked.is_none() {
        refuse(alloc, exchange, allowed)?;
    }
    Ok(asked)
}

fn asked_for(method: &str, allowed: &[Verb]) -> Option<Verb>
    ensures { result ≡ asked_for method.now allowed.now }
{
    for verb in allowed {
        if verb.answers(method) {
            return Some(*verb);
        }
    }
    None
}

// Responds with the methods that are allowed.
fn refuse(alloc: Global, exchange: &mut Exchange, allowed: &[Verb]) -> Result<(), Fault>
    ensures left { OnOk result (exchange.new ≡ left_without None allowed.now exchange.old) }
    ensures answered { Gives told_fault result (refusal_answer allowed.now exchange.old) }
    ensures reached { Reaches exchange.old exchange.new }
{
    let allow = allow_text(alloc, allowed)?;
    exchange.set_status(refusal_status(exchange.method()))?;
    exchange.set_header("allow", allow.as_str())?;
    Ok(())
}

fn refusal_status(method: &str) -> u16
    ensures { result ≡ refusal_status method.now }
{
    if method == "OPTIONS" { 204 } else { 405 }
}

fn allow_text(alloc: Global, allowed: &[Verb]) -> Result<Text, NoMemory>
    ensures { GivesAnswer result (allow_text allowed.now) }
{
    let mut text = String::new(alloc);
    for verb in allowed {
        text.push_str(verb.names())?;
    }
    text.push_str("OPTIONS")?;
    Ok(Text::from_string(text))
}
