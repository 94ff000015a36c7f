//! The content types of files.

ghost use Rattle.std.specs.Option.{option_copied};
ghost use Rattle.std.specs.Prelude.{◌≡◌};
ghost use Rattle.sv_files.specs.ContentType as spec;
ghost use Rattle.sv_mapping.specs.Pattern.{extension, last_segment};

/// Returns the content type of the file of this path, by its extension: the part of its last segment after the last
/// `.`. Extensions are case-sensitive. An unknown one gives `application/octet-stream`.
pub fn content_type_of(path: &str) -> &'static str
    ensures { result.now ≡ spec.content_type path.now }
{
    match extension_of(path) {
        Some(extension) => type_of(extension),
        None => "application/octet-stream",
    }
}

#[tactic(auto, unfolding(crate::specs::ContentType::type_of))]
fn type_of(extension: &str) -> &'static str
    ensures { result.now ≡ spec.type_of extension.now }
{
    match extension {
        "html" | "htm" => "text/html",
        "txt" => "text/plain",
        "css" => "text/css",
        "js" => "text/javascript",
        "json" => "application/json",
        "svg" => "image/svg+xml",
        _ => "application/octet-stream",
    }
}

/// Returns the part of the last segment after its last dot, if it has one.
pub(crate) fn extension_of(path: &str) -> Option<&str>
    ensures { option_copied result ≡ extension path.now }
{
    let (_, extension) = last_segment(path).rsplit_once('.')?;
    Some(extension)
}

fn last_segment(path: &str) -> &str
    ensures { result.now ≡ last_segment path.now }
{
    match path.rsplit_once('/') {
        Some((_, segment)) => segment,
        None => path,
    }
}
