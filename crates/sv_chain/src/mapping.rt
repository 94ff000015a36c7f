//! The dispatches to which a filter mapping applies (Jakarta Servlet 6.0, sections 6.2.4 and 6.2.5).

ghost use Rattle.std.specs.Prelude.{◌≡◌, ◌||◌, codes};
ghost use Rattle.std.specs.List.{list_any};
ghost use Rattle.std.specs.Str.{bytes_eq};
ghost use Rattle.sv_mapping.specs.Pattern.{matches};
ghost use Rattle.sv_chain.specs.FilterChain as spec;

use sv_descriptor::{FilterMapping, Kind};
use sv_mapping::Pattern;
use sv_text::Text;

/// Returns whether the mapping is for dispatches of the kind, and one of its patterns matches the path.
pub(crate) fn maps_path(mapping: &FilterMapping, kind: Kind, path: &str) -> bool
    ensures { result ≡ spec.maps_path kind path.now mapping.now }
{
    is_for(mapping, kind) && matches_one(mapping.url_patterns.as_slice(), path)
}

/// Returns whether the mapping is for dispatches of the kind, and names the servlet or all servlets.
pub(crate) fn maps_servlet(mapping: &FilterMapping, kind: Kind, servlet: &str) -> bool
    ensures { result ≡ spec.maps_servlet kind servlet.now mapping.now }
{
    is_for(mapping, kind) && names(mapping.servlet_names.as_slice(), servlet)
}

fn is_for(mapping: &FilterMapping, kind: Kind) -> bool
    ensures { result ≡ spec.is_for kind mapping.now }
{
    match mapping.dispatchers.as_slice() {
        [] => is_same_kind(Kind::Request, kind),
        kinds => holds_kind(kinds, kind),
    }
}

fn holds_kind(kinds: &[Kind], kind: Kind) -> bool
    ensures { result ≡ list_any (λ other. spec.is_same_kind other kind) kinds.now }
{
    kinds.iter().any(|other| is_same_kind(*other, kind))
}

fn is_same_kind(kind: Kind, other: Kind) -> bool
    ensures { result ≡ spec.is_same_kind kind other }
{
    kind == other
}

fn matches_one(patterns: &[Pattern], path: &str) -> bool
    ensures { result ≡ list_any (λ pattern. matches pattern path.now) patterns.now }
{
    patterns.iter().any(|pattern| pattern.matches(path))
}

fn names(names: &[Text], servlet: &str) -> bool
    ensures { result ≡ list_any (λ name. bytes_eq name servlet.now || bytes_eq name (codes "*")) names.now }
{
    names.iter().any(|name| is_name_of(name.as_str(), servlet))
}

fn is_name_of(name: &str, servlet: &str) -> bool
    ensures { result ≡ (bytes_eq name.now servlet.now || bytes_eq name.now (codes "*")) }
{
    name == servlet || name == "*"
}
