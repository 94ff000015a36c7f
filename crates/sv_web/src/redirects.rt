//! Redirects.

ghost use Rattle.std.specs.Prelude.{◌≡◌, [], ◌∷◌, OnOk, codes, false, true};
ghost use Rattle.std.specs.List.{list_all};
ghost use Rattle.sv_exchange.specs.Changing.{Reaches, SetHeader, SetStatus, after_all, answer};
ghost use Rattle.sv_text.specs.Gives.{Gives};
ghost use Rattle.sv_web.specs.Answering.{call_fault, told_fault};
ghost use Rattle.sv_web.specs.Redirecting.{is_location, is_location_byte, is_own_location, redirect_answer, redirected, status_of};

use crate::fault::Fault;
use sv_component::{Exchange, ExchangeFault};

/// The kind of a redirect (RFC 9110, section 15.4).
#[derive(Clone, Copy)]
pub enum RedirectKind {
    /// 301: permanent; a POST may become a GET.
    MovedPermanently,
    /// 302: temporary; a POST may become a GET.
    Found,
    /// 303: the result of a POST is there, for a GET.
    SeeOther,
    /// 307: temporary, with the same method and body.
    Temporary,
    /// 308: permanent, with the same method and body.
    Permanent,
}

impl RedirectKind {
    /// Returns the status code.
    pub fn status(self) -> u16
        ensures { result ≡ status_of self }
    {
        match self {
            RedirectKind::MovedPermanently => 301,
            RedirectKind::Found => 302,
            RedirectKind::SeeOther => 303,
            RedirectKind::Temporary => 307,
            RedirectKind::Permanent => 308,
        }
    }
}

/// Redirects the client to another location of this site (Jakarta Servlet 6.0, section 5.3). Sets the status and the
/// field `location`. If the response is committed or an include is active, both stay unchanged and the result is
/// `false`. The location is a path that includes the context path, with an optional query and fragment, written as in a
/// URI. It begins with a single `/` and contains only bytes of a URI, so that no text leads to another site.
///
/// # Errors
/// [`Fault::BadLocation`]: the text is not such a location; nothing changes. [`Fault::NoMemory`]: out of memory; the
/// status may have changed.
pub fn redirect(exchange: &mut Exchange, kind: RedirectKind, location: &str) -> Result<bool, Fault>
    ensures own { OnOk result (is_own_location location.now ≡ true) }
    ensures redirected { OnOk result (exchange.new ≡ redirected kind location.now exchange.old) }
    ensures stays { is_own_location location.now ≡ false → exchange.new ≡ exchange.old }
    ensures answered { Gives told_fault result (redirect_answer (is_own_location location.now) kind location.now exchange.old) }
    ensures reached { Reaches exchange.old exchange.new }
{
    if !is_own_location(location.as_bytes()) {
        return Err(Fault::BadLocation);
    }
    Ok(put_location(exchange, kind, location)?)
}

/// Redirects the client to a location that may be on another site, as [`redirect`] does. The location is one of this
/// site, or begins with `http://` or `https://`. Do not pass a text that a client sent.
///
/// # Errors
/// Those of [`redirect`].
pub fn redirect_elsewhere(
    exchange: &mut Exchange,
    kind: RedirectKind,
    location: &str,
) -> Result<bool, Fault>
    ensures proper { OnOk result (is_location location.now ≡ true) }
    ensures redirected { OnOk result (exchange.new ≡ redirected kind location.now exchange.old) }
    ensures stays { is_location location.now ≡ false → exchange.new ≡ exchange.old }
    ensures answered { Gives told_fault result (redirect_answer (is_location location.now) kind location.now exchange.old) }
    ensures reached { Reaches exchange.old exchange.new }
{
    if !is_location(location.as_bytes()) {
        return Err(Fault::BadLocation);
    }
    Ok(put_location(exchange, kind, location)?)
}

// Sets the status and the location.
fn put_location(
    exchange: &mut Exchange,
    kind: RedirectKind,
    location: &str,
) -> Result<bool, ExchangeFault>
    ensures redirected { OnOk result (exchange.new ≡ redirected kind location.now exchange.old) }
    ensures answered { Gives call_fault result
        (answer (SetHeader (codes "location") location.now) (after_all (SetStatus (status_of kind) ∷ []) exchange.old)) }
    ensures reached { Reaches exchange.old exchange.new }
{
    exchange.set_status(kind.status())?;
    exchange.set_header("location", location)
}

// Returns whether a text is a location of this site.
fn is_own_location(location: &[u8]) -> bool
    ensures { result ≡ is_own_location location.now }
{
    location.starts_with(b"/") && !location.starts_with(b"//") && has_location_bytes(location)
}

// Returns whether a text is a location of any site.
fn is_location(location: &[u8]) -> bool
    ensures { result ≡ is_location location.now }
{
    is_own_location(location)
        || ((location.starts_with(b"http://") || location.starts_with(b"https://"))
            && has_location_bytes(location))
}

fn has_location_bytes(location: &[u8]) -> bool
    ensures { result ≡ list_all is_location_byte location.now }
{
    location.iter().all(|b| is_location_byte(*b))
}

// Returns whether a URI may contain the byte.
fn is_location_byte(b: u8) -> bool
    ensures { result ≡ is_location_byte b }
{
    b.is_ascii_alphanumeric() || b"-._~:/?#[]@!$&'()*+,;=%".contains(&b)
}
