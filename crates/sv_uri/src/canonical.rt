//! Canonical paths of request targets.

ghost use Rattle.std.specs.Prelude.{◌≡◌, false, ◌∷◌, MatchOption};
ghost use Rattle.std.specs.Str.{byte};
ghost use Rattle.sv_text.specs.Gives.{Gives};
ghost use Rattle.sv_text.specs.Faults.{first_or};
ghost use Rattle.sv_uri.specs.Fault.{path_fault};
ghost use Rattle.sv_uri.specs.Target.{between_slashes};
ghost use Rattle.sv_uri.specs.Walked.{GivesWalk};
ghost use Rattle.sv_uri.specs.Canonical.{canonical, begins_with_slash, path_faults, path_text};

use crate::fault::{CanonFault, PathFault};
use crate::path::Canon;
use crate::plain::plain_parts;
use crate::query::read_query;
use crate::segment::read_name;
use crate::separator::{before_and_behind, behind_slash};
use crate::walk::Walk;
use std::alloc::Global;
use sv_text::Text;

// Walks over all segments of a path without its first slash.
fn walk_of<'a>(alloc: Global, path: &'a [u8]) -> Result<Walk<'a>, CanonFault>
    ensures { GivesWalk result (between_slashes path.now) }
{
    let mut walk = Walk::new(alloc);
    let mut rest = Some(path);
    while let Some(text) = rest {
        let (segment, behind) = before_and_behind(text, b'/');
        walk.enter(read_name(alloc, segment)?)?;
        rest = behind;
    }
    Ok(walk)
}

// Returns the canonical path of a path without its first slash.
fn canonical_path(alloc: Global, path: &[u8]) -> Result<Text, CanonFault>
    ensures { let segments = between_slashes path.now in
        Gives path_fault result (first_or (path_faults segments) (path_text segments)) }
{
    let walk = walk_of(alloc, path)?;
    if walk.climbs {
        return Err(CanonFault::Path(PathFault::Climbs));
    }
    Ok(walk.path(alloc)?)
}

// Returns the same as [`canon`], by a walk over the path.
fn walked(alloc: Global, target: &[u8]) -> Result<Canon, CanonFault>
    ensures { Gives path_fault result (canonical target.now) }
{
    if target.contains(&b'#') {
        return Err(CanonFault::Path(PathFault::Fragment));
    }
    let Some(relative) = behind_slash(target) else {
        return Err(CanonFault::Path(PathFault::NoSlash));
    };
    let (path, query) = before_and_behind(relative, b'?');
    let path = canonical_path(alloc, path)?;
    let query = read_query(alloc, query)?;
    Ok(Canon { path, query })
}

/// Returns the canonical path of a request target, with its query (Jakarta Servlet 6.0, section 3.5.2; RFC 3986,
/// section 5.2.4).
///
/// The query is cut off at the first `?`, and the rest is split at each `/`. Each segment is cut at its first `;` and
/// decoded once. Empty segments and `.` are dropped, and `..` removes the name before it. If the last segment is empty,
/// `.` or `..`, the path ends in `/`. The target may hold any bytes. The time is linear in its length.
///
/// # Errors
/// The first fault of the target, in the order of [`PathFault`], or `CanonFault::NoMemory` if an allocation was
/// refused.
#[inline(always)]
pub fn canon(alloc: Global, target: &[u8]) -> Result<Canon, CanonFault>
    ensures { Gives path_fault result (canonical target.now) }
{
    if let Some((path, query)) = plain_parts(target) {
        let path = Text::copy_of(alloc, path)?;
        if query.is_none() {
            return Ok(Canon { path, query: None });
        }
        let query = read_query(alloc, query)?;
        return Ok(Canon { path, query });
    }
    walked(alloc, target)
}
