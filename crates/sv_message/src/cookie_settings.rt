//! The settings of a context's session cookie.

ghost use Rattle.sv_text.specs.Gives.{GivesAnswer};
ghost use Rattle.sv_message.specs.Cookies.{standard_settings};

use std::alloc::Global;
use sv_text::{NoMemory, Text};

/// The settings of a context's session cookie (Jakarta Servlet 6.0, section 7.1.1; RFC 6265, section 4.1).
#[derive(Drop)]
pub struct CookieSettings {
    /// The cookie's name.
    pub name: Text,
    /// The path under which the client sends the cookie back; `None` for the context's path.
    pub path: Option<Text>,
    /// Whether the cookie is hidden from scripts.
    pub http_only: bool,
    /// The lifetime of the cookie in seconds; `None` if it lasts until the client ends.
    pub max_age: Option<u32>,
}

impl CookieSettings {
    /// Returns the settings for a descriptor without a cookie configuration. The name is `JSESSIONID` and the path is
    /// the context's. The cookie is hidden from scripts and lasts until the client ends.
    pub fn standard(alloc: Global) -> Result<CookieSettings, NoMemory>
        ensures { GivesAnswer result standard_settings }
    {
        Ok(CookieSettings {
            name: Text::copy_of(alloc, "JSESSIONID")?,
            path: None,
            http_only: true,
            max_age: None,
        })
    }

    /// Copies settings.
    pub fn copy_of(alloc: Global, settings: &CookieSettings) -> Result<CookieSettings, NoMemory>
        ensures { GivesAnswer result settings.now }
    {
        Ok(CookieSettings {
            name: Text::copy_of(alloc, settings.name.as_str())?,
            path: path_copied(alloc, &settings.path)?,
            http_only: settings.http_only,
            max_age: settings.max_age,
        })
    }
}

fn path_copied(alloc: Global, path: &Option<Text>) -> Result<Option<Text>, NoMemory>
    ensures { GivesAnswer result path.now }
{
    match path {
        Some(path) => Ok(Some(Text::copy_of(alloc, path.as_str())?)),
        None => Ok(None),
    }
}
