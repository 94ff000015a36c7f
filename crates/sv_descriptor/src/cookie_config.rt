//! The configuration of the session cookie.

ghost use Rattle.std.specs.Prelude.{◌≡◌};
ghost use Rattle.std.specs.List.{list_all};
ghost use Rattle.sv_descriptor.specs.CookieConfig as spec;

use crate::collection::is_token_text;
use crate::fault::{FaultCode, LocatedReadFault, refuse};
use crate::ignored_keys::element_keys;
use crate::limits::{MAX_COOKIE_AGE, MAX_COOKIE_PATH_BYTES, MAX_NAME_BYTES};
use crate::schema::{optional, optional_or};
use crate::table::TableSchema;
use crate::text::{TextOf, TextSchema, is_within};
use crate::whole::{Truth, WholeOf, WholeSchema};
use std::alloc::Global;
use sv_message::CookieSettings;
use sv_text::Text;
use toml::Table;

/// The table of a session cookie (`cookie-config`, Jakarta Servlet 6.0 section 7.1.1; RFC 6265 section 4.1).
#[derive(Clone, Copy)]
pub struct CookieTable;

impl TableSchema for CookieTable {
    type Output = CookieSettings;

    ghost reads = { λ _. spec.cookie_config };

    fn read(&self, alloc: Global, table: &Table) -> Result<CookieSettings, LocatedReadFault> {
        element_keys(alloc, &["name", "path", "http-only", "max-age"], table)?;
        let standard = CookieSettings::standard(alloc)?;
        Ok(CookieSettings {
            name: optional_or(alloc, table, "name", &TextOf(CookieName), standard.name)?,
            path: optional(alloc, table, "path", &TextOf(CookiePath))?,
            http_only: optional_or(alloc, table, "http-only", &Truth, true)?,
            max_age: optional_or(alloc, table, "max-age", &WholeOf(MaxAge), None)?,
        })
    }
}

/// The name of a cookie.
#[derive(Clone, Copy)]
struct CookieName;

impl TextSchema for CookieName {
    type Output = Text;

    ghost reads = { λ _. spec.cookie_name };

    fn read(&self, alloc: Global, key: &str, text: &str) -> Result<Text, LocatedReadFault> {
        if !is_cookie_name(text) {
            return refuse(alloc, FaultCode::BadValue, key);
        }
        Ok(Text::copy_of(alloc, text)?)
    }
}

#[tactic(auto, unfolding(crate::specs::CookieConfig::is_cookie_name))]
fn is_cookie_name(text: &str) -> bool
    ensures { result ≡ spec.is_cookie_name text.now }
{
    is_within(text, 1, MAX_NAME_BYTES) && is_token_text(text)
}

/// The path of a cookie: the cookie is sent only with requests at or below it.
#[derive(Clone, Copy)]
struct CookiePath;

impl TextSchema for CookiePath {
    type Output = Text;

    ghost reads = { λ _. spec.cookie_path };

    fn read(&self, alloc: Global, key: &str, text: &str) -> Result<Text, LocatedReadFault> {
        if !is_cookie_path(text) {
            return refuse(alloc, FaultCode::BadValue, key);
        }
        Ok(Text::copy_of(alloc, text)?)
    }
}

#[tactic(auto, unfolding(crate::specs::CookieConfig::is_cookie_path))]
fn is_cookie_path(text: &str) -> bool
    ensures { result ≡ spec.is_cookie_path text.now }
{
    is_within(text, 1, MAX_COOKIE_PATH_BYTES) && text.starts_with('/') && is_path_text(text)
}

fn is_path_text(text: &str) -> bool
    ensures { result ≡ list_all spec.is_path_byte text.now }
{
    text.as_bytes().iter().all(|byte| is_path_byte(*byte))
}

fn is_path_byte(byte: u8) -> bool
    ensures { result ≡ spec.is_path_byte byte }
{
    32 <= byte && byte <= 126 && byte != b';'
}

/// The lifetime of a cookie, in seconds. With -1, it lasts until the client ends.
#[derive(Clone, Copy)]
struct MaxAge;

impl WholeSchema for MaxAge {
    type Output = Option<u32>;

    ghost reads = { λ _. spec.max_age };

    fn read(&self, alloc: Global, key: &str, number: i64) -> Result<Option<u32>, LocatedReadFault> {
        if number < -1 || number > i64::from(MAX_COOKIE_AGE) {
            return refuse(alloc, FaultCode::BadValue, key);
        }
        if number < 0 {
            Ok(None)
        } else {
            Ok(Some(number as u32))
        }
    }
}
