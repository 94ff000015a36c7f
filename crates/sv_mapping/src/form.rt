//! The forms of URL patterns, and the paths that each matches.

ghost use Rattle.std.specs.Prelude.{◌≡◌};
ghost use Rattle.std.specs.Option.{option_copied};
ghost use Rattle.sv_mapping.specs.Form.{form_seen};
ghost use Rattle.sv_mapping.specs.Pattern.{form, form_matches, has_extension, is_at_or_below, last_segment, extension};

/// The meaning of a pattern's text (Jakarta Servlet 6.0, section 12.2).
#[derive(Clone, Copy)]
pub enum Form<'a> {
    /// `""`: only the context root.
    Root,
    /// `/`: every path.
    Default,
    /// `*.` and this extension.
    Extension(&'a str),
    /// This prefix and `/*`.
    Prefix(&'a str),
    /// Only this path.
    Exact(&'a str),
}

impl<'a> Form<'a> {
    /// Returns the form of a pattern's text.
    pub(crate) fn of(text: &'a str) -> Form<'a>
        ensures { form_seen result ≡ form text.now }
    {
        if text.is_empty() {
            return Form::Root;
        }
        if text == "/" {
            return Form::Default;
        }
        if let Some(extension) = text.strip_prefix("*.") {
            return Form::Extension(extension);
        }
        match text.strip_suffix("/*") {
            Some(prefix) => Form::Prefix(prefix),
            None => Form::Exact(text),
        }
    }

    /// Returns whether a pattern of this form matches the path.
    pub(crate) fn matches(self, path: &str) -> bool
        ensures { result ≡ form_matches (form_seen self.entry) path.now }
    {
        match self {
            Form::Root => path == "/",
            Form::Default => true,
            Form::Extension(wanted) => has_extension(path, wanted),
            Form::Prefix(prefix) => is_at_or_below(prefix, path),
            Form::Exact(text) => path == text,
        }
    }
}

/// Returns whether the path is the prefix or lies below it: the rest after the prefix is empty or begins with `/`.
pub fn is_at_or_below(prefix: &str, path: &str) -> bool
    ensures { result ≡ is_at_or_below prefix.now path.now }
{
    match path.strip_prefix(prefix) {
        Some(rest) => rest.is_empty() || rest.starts_with('/'),
        None => false,
    }
}

fn has_extension(path: &str, wanted: &str) -> bool
    ensures { result ≡ has_extension wanted.now path.now }
{
    match extension(path) {
        Some(found) => found == wanted,
        None => false,
    }
}

/// Returns the extension of a path, if it has one: the text after the last dot of its last segment (Jakarta Servlet
/// 6.0, section 12.1).
pub fn extension(path: &str) -> Option<&str>
    ensures { option_copied result ≡ extension path.now }
{
    let (_, extension) = last_segment(path).rsplit_once('.')?;
    Some(extension)
}

fn last_segment(path: &str) -> &str
    ensures { result.now ≡ last_segment path.now }
{
    match path.rsplit_once('/') {
        Some((_, segment)) => segment,
        None => path,
    }
}
