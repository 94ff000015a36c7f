//! Splitting a matched path into servlet path and path info (Jakarta Servlet 6.0, section 3.5).

ghost use Rattle.std.specs.Option.{option_copied};
ghost use Rattle.std.specs.Prelude.{IsTrue, [], take, unwrap_or, ◌++◌, ◌≡◌};
ghost use Rattle.std.specs.Str.{IsCharBoundary};
ghost use Rattle.sv_mapping.specs.Pattern.{matches};
ghost use Rattle.sv_mapping.specs.Split.{path_info, rest_from, servlet_path};

use crate::form::Form;
use crate::pattern::{Pattern, Split};

/// Splits a path that the pattern matches.
pub fn split<'a>(pattern: &Pattern, path: &'a str) -> Split<'a>
    requires { IsTrue (matches pattern.now path.now) }
    ensures servlet_path { result.servlet_path.now ≡ servlet_path pattern.now path.now }
    ensures path_info { option_copied result.path_info ≡ path_info pattern.now path.now }
    ensures whole { result.servlet_path.now ++ unwrap_or (option_copied result.path_info) [] ≡ path.now }
{
    match pattern.form() {
        Form::Root => split_at(path, 0),
        Form::Prefix(prefix) => split_at(path, prefix.len()),
        Form::Default | Form::Extension(_) | Form::Exact(_) => Split {
            servlet_path: path,
            path_info: None,
        },
    }
}

fn split_at(path: &str, len: usize) -> Split<'_>
    requires { IsCharBoundary path.now len }
    ensures servlet_path { result.servlet_path.now ≡ take len path.now }
    ensures path_info { option_copied result.path_info ≡ rest_from len path.now }
    ensures whole { result.servlet_path.now ++ unwrap_or (option_copied result.path_info) [] ≡ path.now }
{
    let (servlet_path, rest) = path.split_at(len);
    Split {
        servlet_path,
        path_info: if rest.is_empty() { None } else { Some(rest) },
    }
}
