//! The best match among patterns (Jakarta Servlet 6.0, section 12.1).

ghost use Rattle.std.specs.Prelude.{◌≡◌, ◌<◌, ◌&&◌, ℕ, List, ◌++◌, length, true, IfSome, IsTrue, slice_get};
ghost use Rattle.std.specs.List.{HoldsAt};
ghost use Rattle.std.specs.Option.{option_and_then, option_copied, option_map_or};
ghost use Rattle.sv_mapping.specs.BestMatch.{best, best_pattern, best_with, outranks};
ghost use Rattle.sv_mapping.specs.Pattern.{matches};

use crate::pattern::Pattern;

/// Returns the place of the best match for a path: the first pattern that matches it and that no other matching pattern
/// outranks. An exact match comes first, then the longest prefix, then an extension, then the default pattern. Returns
/// `None` if no pattern matches.
pub fn best(patterns: &[Pattern], path: &str) -> Option<usize>
    ensures place { result ≡ best patterns.now path.now }
    ensures within { IfSome result (λ place. place < length patterns.now) }
    ensures matching { IfSome result (HoldsAt (λ pattern. IsTrue (matches pattern path.now)) patterns.now) }
    ensures text { option_and_then (λ place. slice_get patterns.now place) result ≡ best_pattern patterns.now path.now }
{
    let mut held = None;
    let mut best = None;
    for (place, pattern) in patterns.iter().enumerate() {
        if takes_over(pattern, held, path) {
            held = Some(pattern);
            best = Some(place);
        }
    }
    best
}

/// Returns the best of a pattern found before and those of these patterns that match the path: the first that none of
/// them outranks. The pattern found before counts as a match, whatever the path. If it was the best of earlier
/// patterns, the result is the best of all, so that lists can be searched one after another.
pub fn better<'a>(
    found: Option<&'a Pattern>,
    patterns: &'a [Pattern],
    path: &str,
) -> Option<&'a Pattern>
    ensures with { option_copied result ≡ best_with (option_copied found.entry) patterns.now path.now }
    ensures joined { (before : List (List ℕ)) → best_pattern before path.now ≡ option_copied found.entry → option_copied result ≡ best_pattern (before ++ patterns.now) path.now }
{
    let mut held = found;
    for pattern in patterns {
        if takes_over(pattern, held, path) {
            held = Some(pattern);
        }
    }
    held
}

/// Returns whether a pattern matches the path and outranks the best match before it, if there is one.
fn takes_over(pattern: &Pattern, held: Option<&Pattern>, path: &str) -> bool
    ensures { result ≡ (matches pattern.now path.now && option_map_or (λ other. outranks pattern.now other) (option_copied held.entry) true) }
{
    pattern.matches(path)
        && match held {
            Some(other) => pattern.outranks(other),
            None => true,
        }
}
