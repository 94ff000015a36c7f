//! A paragraph in a page.

ghost use Rattle.std.specs.Prelude.{◌≡◌, ◌++◌, OnOk, string_bytes};
ghost use Rattle.guestbook_components.specs.Paragraph.{opening, paragraph};

use std::alloc::Global;
use sv_web::{NoMemory, escape_html};

/// Adds a paragraph of this class, which shows any text as it was written.
///
/// # Errors
/// [`NoMemory`]: out of memory; a part of the paragraph may have been added.
#[tactic(auto, unfolding(crate::specs::Paragraph::paragraph))]
pub fn push_paragraph(
    alloc: Global,
    page: &mut String,
    class: &str,
    text: &str,
) -> Result<(), NoMemory>
    ensures { OnOk result (string_bytes page.new ≡ string_bytes page.old ++ paragraph class.now text.now) }
{
    let text = escape_html(alloc, text)?;
    push_opening(page, class)?;
    page.push_str(text.as_str())?;
    page.push_str("</p>\n")?;
    Ok(())
}

fn push_opening(page: &mut String, class: &str) -> Result<(), NoMemory>
    ensures { OnOk result (string_bytes page.new ≡ string_bytes page.old ++ opening class.now) }
{
    page.push_str("<p class=\"")?;
    page.push_str(class)?;
    page.push_str("\" dir=\"auto\">")?;
    Ok(())
}
