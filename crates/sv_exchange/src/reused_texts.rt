//! The context path and the cookie settings that an exchange keeps from one request to the next.

ghost use Rattle.std.specs.Prelude.{◌≡◌, [], IsTrue, OnOk};
ghost use Rattle.sv_exchange.specs.Beginning.{no_settings};

use std::alloc::Global;
use sv_message::CookieSettings;
use sv_text::{NoMemory, Text};

/// Returns an empty text. Takes no memory.
pub(crate) fn no_text(alloc: Global) -> Text
    ensures { result ≡ [] }
{
    Text::from_string(String::new(alloc))
}

/// Returns settings for a cookie without a name.
pub(crate) fn no_settings(alloc: Global) -> CookieSettings
    ensures { result ≡ no_settings }
{
    CookieSettings {
        name: no_text(alloc),
        path: None,
        http_only: false,
        max_age: None,
    }
}

/// Sets a text to the other one. Takes no memory if they are equal.
#[inline(always)]
pub(crate) fn set_text(alloc: Global, text: &mut Text, other: &str) -> Result<(), NoMemory>
    ensures { OnOk result (text.new ≡ other.now) }
{
    if text.as_str() != other {
        *text = Text::copy_of(alloc, other)?;
    }
    Ok(())
}

/// Sets settings to the other ones. Takes no memory if they are equal.
pub(crate) fn set_settings(
    alloc: Global,
    settings: &mut CookieSettings,
    others: &CookieSettings,
) -> Result<(), NoMemory>
    ensures { OnOk result (settings.new ≡ others.now) }
{
    if !are_same(settings, others) {
        *settings = CookieSettings::copy_of(alloc, others)?;
    }
    Ok(())
}

// Returns whether two settings are equal.
fn are_same(settings: &CookieSettings, others: &CookieSettings) -> bool
    ensures { IsTrue result → settings.now ≡ others.now }
{
    settings.name.as_str() == others.name.as_str()
        && is_same(&settings.path, &others.path)
        && settings.http_only == others.http_only
        && settings.max_age == others.max_age
}

// Returns whether two optional texts are equal.
fn is_same(text: &Option<Text>, other: &Option<Text>) -> bool
    ensures { IsTrue result → text.now ≡ other.now }
{
    match (text, other) {
        (Some(text), Some(other)) => text.as_str() == other.as_str(),
        (None, None) => true,
        _ => false,
    }
}
