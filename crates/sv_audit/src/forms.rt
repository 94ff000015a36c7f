//! The forms of patterns that are given as texts.

ghost use Rattle.std.specs.Prelude.{◌≡◌};
ghost use Rattle.sv_mapping.specs.Form.{form_seen};
ghost use Rattle.sv_mapping.specs.Pattern.{form};

use sv_mapping::Form;

/// Returns the form of a pattern's text (Jakarta Servlet 6.0, section 12.2).
pub fn form_of(text: &str) -> Form<'_>
    ensures { form_seen result ≡ form text.now }
{
    if text.is_empty() {
        return Form::Root;
    }
    if text == "/" {
        return Form::Default;
    }
    if let Some(extension) = text.strip_prefix("*.") {
        return Form::Extension(extension);
    }
    match text.strip_suffix("/*") {
        Some(prefix) => Form::Prefix(prefix),
        None => Form::Exact(text),
    }
}
