//! Texts in pages.

ghost use Rattle.std.specs.Prelude.{◌≡◌, ◌++◌, OnOk, encode_utf8_all, string_bytes};
ghost use Rattle.sv_text.specs.Gives.{GivesAnswer};
ghost use Rattle.sv_web.specs.Escaping.{escaped_char, html_escaped};

use std::alloc::Global;
use sv_text::{NoMemory, Text};

/// Escapes a text for a page (HTML Standard, section 13.3). `&`, `<`, `>`, `"` and `'` are written as references, and
/// other characters are unchanged. The result can be used in the content of an element and in a quoted attribute value,
/// and is shown there as the text.
///
/// # Errors
/// [`NoMemory`]: out of memory.
pub fn escape_html(alloc: Global, text: &str) -> Result<Text, NoMemory>
    ensures { GivesAnswer result (html_escaped text.now) }
{
    let mut page = String::new(alloc);
    for c in text.chars() {
        push_escaped(&mut page, c)?;
    }
    Ok(Text::from_string(page))
}

// Adds a character as a page writes it.
fn push_escaped(page: &mut String, c: char) -> Result<(), NoMemory>
    ensures { OnOk result (string_bytes page.new ≡ string_bytes page.old ++ encode_utf8_all (escaped_char c)) }
{
    match c {
        '&' => page.push_str("&amp;")?,
        '<' => page.push_str("&lt;")?,
        '>' => page.push_str("&gt;")?,
        '"' => page.push_str("&quot;")?,
        '\'' => page.push_str("&#39;")?,
        _ => page.push(c)?,
    }
    Ok(())
}
