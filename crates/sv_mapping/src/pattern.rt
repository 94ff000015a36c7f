//! URL patterns: texts that say which paths they match.

ghost use Rattle.std.specs.Prelude.{IsErrOf, IsTrue, false, not, ◌↔◌, ◌≡◌};
ghost use Rattle.sv_mapping.specs.BestMatch.{outranks};
ghost use Rattle.sv_mapping.specs.Fault.{pattern_read, text_fault};
ghost use Rattle.sv_mapping.specs.Form.{form_seen};
ghost use Rattle.sv_mapping.specs.Pattern.{form, form_text, is_extension_pattern, is_path_pattern, is_pattern, matches};
ghost use Rattle.sv_text.specs.Gives.{Gives};

use crate::fault::PatternFault;
use crate::form::Form;
use crate::rank::Rank;
use std::alloc::Global;
use std::marker::Model;
use sv_text::Text;

/// A URL pattern (Jakarta Servlet 6.0, section 12.2). Contracts see its text.
#[derive(Drop)]
pub struct Pattern {
    text: Text,
}

impl Model for Pattern {
    ghost use Rattle.std.specs.Prelude.{◌≡◌, ℕ, List, IsTrue};
    ghost use Rattle.sv_mapping.specs.Pattern.{is_pattern};

    ghost Value = { List ℕ };

    ghost view = { λ p. p.text };

    ghost invariant = { λ p. IsTrue (is_pattern p.text) };
}

impl Pattern {
    /// Reads a URL pattern of at most [`MAX_PATTERN_BYTES`] bytes: the empty text, a text that begins with `/`, or `*.`
    /// and a text without `/` (Jakarta Servlet 6.0, section 12.2).
    ///
    /// # Errors
    /// [`PatternFault::BadPattern`] for any other text, and [`PatternFault::NoMemory`] if there is no memory for a copy
    /// of the pattern's text.
    pub fn parse(alloc: Global, text: &str) -> Result<Pattern, PatternFault>
        ensures gives { Gives text_fault result (pattern_read text.now) }
        ensures refused { IsErrOf result PatternFault.BadPattern ↔ IsTrue (not (is_pattern text.now)) }
    {
        if !is_pattern(text) {
            return Err(PatternFault::BadPattern);
        }
        Ok(Pattern {
            text: Text::copy_of(alloc, text)?,
        })
    }

    /// Returns the text of the pattern.
    pub fn text(&self) -> &str
        ensures value { result.now ≡ self.now }
        ensures accepted { IsTrue (is_pattern result.now) }
    {
        self.text.as_str()
    }

    /// Returns whether the pattern matches a path within its context (Jakarta Servlet 6.0, sections 12.1 and 12.2). The
    /// path may be any text, canonical or not, and is compared with case.
    pub fn matches(&self, path: &str) -> bool
        ensures { result ≡ matches self.now path.now }
    {
        self.form().matches(path)
    }

    /// Returns whether the pattern is chosen before the other one if both match a path.
    pub(crate) fn outranks(&self, other: &Pattern) -> bool
        ensures { result ≡ outranks self.now other.now }
    {
        Rank::of(self.form()).is_above(Rank::of(other.form()))
    }

    /// Returns the form of the pattern's text. No two texts have the same form.
    pub fn form(&self) -> Form<'_>
        ensures form { form_seen result ≡ form self.now }
        ensures text { form_text (form_seen result) ≡ self.now }
    {
        Form::of(self.text())
    }
}

fn is_pattern(text: &str) -> bool
    ensures { result ≡ is_pattern text.now }
{
    text.len() <= MAX_PATTERN_BYTES && (is_path_pattern(text) || is_extension_pattern(text))
}

fn is_path_pattern(text: &str) -> bool
    ensures { result ≡ is_path_pattern text.now }
{
    text.is_empty() || text.starts_with('/')
}

fn is_extension_pattern(text: &str) -> bool
    ensures { result ≡ is_extension_pattern text.now }
{
    text.starts_with("*.") && !text.as_bytes().contains(&b'/')
}

/// The greatest length of a URL pattern's text, in bytes.
pub const MAX_PATTERN_BYTES: usize = 1024;

/// The parts of a path within its context.
#[derive(Clone, Copy)]
pub struct Split<'a> {
    /// The part of the path that the pattern claims.
    pub servlet_path: &'a str,
    /// The rest after the prefix of a prefix pattern, unless it is empty, or `/` for the pattern `""`.
    pub path_info: Option<&'a str>,
}
