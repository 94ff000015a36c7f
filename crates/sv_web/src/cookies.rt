//! Setting cookies.

ghost use Rattle.std.specs.Prelude.{◌≡◌, ◌++◌, OnErr, OnOk, codes, string_bytes, true};
ghost use Rattle.http_header.specs.Token.{is_token_byte};
ghost use Rattle.std.specs.List.{list_all};
ghost use Rattle.std.specs.Option.{option_copied};
ghost use Rattle.sv_exchange.specs.Changing.{Reaches};
ghost use Rattle.sv_text.specs.Gives.{Gives, GivesAnswer};
ghost use Rattle.sv_message.specs.Cookies.{http_only_attribute, max_age_attribute};
ghost use Rattle.sv_web.specs.Answering.{told_fault};
ghost use Rattle.sv_web.specs.Cookies.{cookie_answer, cookie_text, has_name, has_path, is_cookie, is_octet, is_path, is_path_byte, path_part, same_site_attribute, secure_attribute, with_cookie};

use crate::fault::Fault;
use http_header::is_token_char;
use itoa::Buffer;
use std::alloc::Global;
use sv_component::Exchange;
use sv_text::{NoMemory, Text};

/// A cookie to set (RFC 6265, section 4.1).
#[derive(Clone, Copy)]
pub struct NewCookie<'a> {
    /// The name, a nonempty token.
    pub name: &'a str,
    /// The value: visible ASCII except `"`, `,`, `;` and the backslash.
    pub value: &'a str,
    /// The path below which the client sends it back. It begins with `/`, and contains no control byte and no `;`. The
    /// default is the folder of the requested path.
    pub path: Option<&'a str>,
    /// The number of seconds that the client keeps it, 0 to remove it. By default it is kept until the client ends.
    pub max_age: Option<u32>,
    /// Whether scripts cannot read it.
    pub http_only: bool,
    /// Whether it is sent back only over secure connections.
    pub secure: bool,
    /// Whether it is sent with requests that other sites cause. The default is that of the client.
    pub same_site: Option<SameSite>,
}

/// Whether a cookie is sent with requests that other sites cause (the attribute `SameSite`).
#[derive(Clone, Copy)]
pub enum SameSite {
    /// Never.
    Strict,
    /// Only with requests that navigate to this site.
    Lax,
    /// Always. Clients then require the cookie to be secure.
    Everywhere,
}

/// Adds the field `set-cookie` of a cookie (Jakarta Servlet 6.0, section 5.2; RFC 6265, section 4.1), as
/// [`Exchange::add_header`] does. It is ignored, with the result `false`, if the response is committed or an include is
/// active. The container sets the session cookie itself.
///
/// # Errors
/// [`Fault::BadCookie`]: the name, the value or the path is invalid, so that no text of a client can add an attribute
/// or a field. [`Fault::NoMemory`]: out of memory. In both cases nothing changes.
pub fn set_cookie(
    alloc: Global,
    exchange: &mut Exchange,
    cookie: &NewCookie<'_>,
) -> Result<bool, Fault>
    ensures proper { OnOk result (is_cookie cookie.now ≡ true) }
    ensures added { OnOk result (exchange.new ≡ with_cookie cookie.now exchange.old) }
    ensures refused { OnErr result (exchange.new ≡ exchange.old) }
    ensures answered { Gives told_fault result (cookie_answer (is_cookie cookie.now) cookie.now exchange.old) }
    ensures reached { Reaches exchange.old exchange.new }
{
    if !is_cookie(cookie) {
        return Err(Fault::BadCookie);
    }
    let text = cookie_text(alloc, cookie)?;
    Ok(exchange.add_header("set-cookie", text.as_str())?)
}

// Returns whether the cookie follows the grammar.
fn is_cookie(cookie: &NewCookie<'_>) -> bool
    ensures { result ≡ is_cookie cookie.now }
{
    has_name(cookie.name.as_bytes()) && has_octets(cookie.value.as_bytes()) && has_path(cookie.path)
}

fn has_name(name: &[u8]) -> bool
    ensures { result ≡ has_name name.now }
{
    !name.is_empty() && has_token_bytes(name)
}

fn has_token_bytes(name: &[u8]) -> bool
    ensures { result ≡ list_all is_token_byte name.now }
{
    name.iter().all(|b| is_token_char(*b))
}

fn has_octets(value: &[u8]) -> bool
    ensures { result ≡ list_all is_octet value.now }
{
    value.iter().all(|b| is_octet(*b))
}

// Returns whether a cookie's value may contain the byte.
fn is_octet(b: u8) -> bool
    ensures { result ≡ is_octet b }
{
    b == 0x21
        || (0x23 <= b && b <= 0x2b)
        || (0x2d <= b && b <= 0x3a)
        || (0x3c <= b && b <= 0x5b)
        || (0x5d <= b && b <= 0x7e)
}

fn has_path(path: Option<&str>) -> bool
    ensures { result ≡ has_path (option_copied path.entry) }
{
    match path {
        Some(path) => is_path(path.as_bytes()),
        None => true,
    }
}

fn is_path(path: &[u8]) -> bool
    ensures { result ≡ is_path path.now }
{
    path.starts_with(b"/") && has_path_bytes(path)
}

fn has_path_bytes(path: &[u8]) -> bool
    ensures { result ≡ list_all is_path_byte path.now }
{
    path.iter().all(|b| is_path_byte(*b))
}

// Returns whether a cookie's path may contain the byte.
fn is_path_byte(b: u8) -> bool
    ensures { result ≡ is_path_byte b }
{
    0x20 <= b && b <= 0x7e && b != b';'
}

// Returns the text that sets the cookie.
fn cookie_text(alloc: Global, cookie: &NewCookie<'_>) -> Result<Text, NoMemory>
    ensures { GivesAnswer result (cookie_text cookie.now) }
{
    let mut text = String::new(alloc);
    push_pair(&mut text, cookie.name, cookie.value)?;
    push_path(&mut text, cookie.path)?;
    push_max_age(&mut text, cookie.max_age)?;
    text.push_str(http_only_attribute(cookie.http_only))?;
    text.push_str(secure_attribute(cookie.secure))?;
    text.push_str(same_site_attribute(cookie.same_site))?;
    Ok(Text::from_string(text))
}

fn push_pair(text: &mut String, name: &str, value: &str) -> Result<(), NoMemory>
    ensures { OnOk result (string_bytes text.new ≡ string_bytes text.old ++ (name.now ++ codes "=" ++ value.now)) }
{
    text.push_str(name)?;
    text.push_str("=")?;
    text.push_str(value)?;
    Ok(())
}

fn push_path(text: &mut String, path: Option<&str>) -> Result<(), NoMemory>
    ensures { OnOk result (string_bytes text.new ≡ string_bytes text.old ++ path_part (option_copied path.entry)) }
{
    if let Some(path) = path {
        text.push_str("; Path=")?;
        text.push_str(path)?;
    }
    Ok(())
}

fn push_max_age(text: &mut String, max_age: Option<u32>) -> Result<(), NoMemory>
    ensures { OnOk result (string_bytes text.new ≡ string_bytes text.old ++ max_age_attribute max_age) }
{
    if let Some(seconds) = max_age {
        let mut buffer = Buffer::new();
        let digits = buffer.format(seconds);
        text.push_str("; Max-Age=")?;
        text.push_str(digits)?;
    }
    Ok(())
}

fn http_only_attribute(http_only: bool) -> &'static str
    ensures { result.now ≡ http_only_attribute http_only }
{
    if http_only { "; HttpOnly" } else { "" }
}

fn secure_attribute(secure: bool) -> &'static str
    ensures { result.now ≡ secure_attribute secure }
{
    if secure { "; Secure" } else { "" }
}

fn same_site_attribute(same_site: Option<SameSite>) -> &'static str
    ensures { result.now ≡ same_site_attribute same_site }
{
    match same_site {
        Some(SameSite::Strict) => "; SameSite=Strict",
        Some(SameSite::Lax) => "; SameSite=Lax",
        Some(SameSite::Everywhere) => "; SameSite=None",
        None => "",
    }
}
