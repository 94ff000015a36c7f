//! Welcome files (Jakarta Servlet 6.0, section 10.10).

ghost use Rattle.std.specs.Prelude.{◌≡◌, ◌++◌, ◌&&◌, not, codes};
ghost use Rattle.std.specs.List.{list_any};
ghost use Rattle.std.specs.Str.{bytes_eq};
ghost use Rattle.sv_text.specs.Gives.{GivesAnswer};
ghost use Rattle.sv_mapping.specs.Pattern.{matches};
ghost use Rattle.sv_files.specs.Files as spec;

use std::alloc::Global;
use sv_mapping::Pattern;
use sv_text::{NoMemory, Text};

/// Returns a folder's path with a name appended.
pub(crate) fn joined(alloc: Global, path: &str, name: &str) -> Result<Text, NoMemory>
    ensures { GivesAnswer result (path.now ++ name.now) }
{
    let mut text = String::with_capacity(alloc, path.len())?;
    text.push_str(path)?;
    text.push_str(name)?;
    Ok(Text::from_string(text))
}

/// Returns whether a pattern other than the default pattern matches the path.
pub(crate) fn is_served(patterns: &[Pattern], path: &str) -> bool
    ensures { result ≡ spec.is_served patterns.now path.now }
{
    patterns.iter().any(|pattern| serves(pattern, path))
}

fn serves(pattern: &Pattern, path: &str) -> bool
    ensures { result ≡ (not (bytes_eq pattern.now (codes "/")) && matches pattern.now path.now) }
{
    pattern.text() != "/" && pattern.matches(path)
}
