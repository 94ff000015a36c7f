//! The differences of two configurations of a context.

ghost use Rattle.std.specs.Prelude.{◌≡◌, ◌++◌, IfOk, OnOk, map};
ghost use Rattle.std.specs.List.{flat_map};
ghost use Rattle.sv_text.specs.Gives.{GivesAnswer};
ghost use Rattle.sv_difference.specs.Differences as spec;

use crate::difference::{Difference, Side};
use crate::meetings::{Meeting, meetings};
use crate::method_sets::{has_methods, meet};
use std::alloc::Global;
use sv_audit::{
    DifferenceKind, Group, Logins, Row, copied_access, is_same, kind_between, same_fates,
};
use sv_constraints::Methods;
use sv_text::{Listed, NoMemory, Text};

/// Returns what differs between two configurations of a context: for each pair of rows that share one of the paths, the
/// methods for which other visitors pass, or are asked to log in (Jakarta Servlet 6.0, sections 12.1, 13.6 and 13.8). The
/// paths are what follows the context path in the paths of requests. Opened differences come first, then closed ones, then
/// changed ones, each in the order of the paths. Rows whose pattern is not a URL pattern have no paths.
///
/// # Errors
/// `NoMemory` if memory runs out.
pub fn differences(
    alloc: Global,
    paths: &[Text],
    before: &Side,
    after: &Side,
) -> Result<Listed<Difference>, NoMemory>
    ensures { GivesAnswer result (spec.differences paths.now before.now after.now) }
{
    let found = all_differences(alloc, paths, before, after)?;
    by_kind(alloc, found)
}

/// Returns the differences in the order of the pairs of rows.
fn all_differences(
    alloc: Global,
    paths: &[Text],
    before: &Side,
    after: &Side,
) -> Result<Vec<Difference>, NoMemory>
    ensures { IfOk result (λ found. found.items ≡ spec.all_differences paths.now before.now after.now) }
{
    let meetings = meetings(
        alloc,
        paths,
        before.table.rows.as_slice(),
        after.table.rows.as_slice(),
    )?;
    let mut found = Vec::new(alloc);
    for meeting in meetings.as_slice() {
        push_at(&mut found, alloc, before, after, meeting)?;
    }
    Ok(found)
}

/// Returns opened differences first, then closed ones, then changed ones.
fn by_kind(alloc: Global, found: Vec<Difference>) -> Result<Listed<Difference>, NoMemory>
    ensures { GivesAnswer result (spec.by_kind found.items) }
{
    let mut opened = Vec::new(alloc);
    let mut closed = Vec::new(alloc);
    let mut changed = Vec::new(alloc);
    for difference in found {
        match difference.kind {
            DifferenceKind::Opened => opened.push(difference)?,
            DifferenceKind::Closed => closed.push(difference)?,
            DifferenceKind::Changed => changed.push(difference)?,
        }
    }
    opened.append(&mut closed)?;
    opened.append(&mut changed)?;
    Ok(Listed::from_vec(opened))
}

/// Appends the differences of two rows that share a path.
fn push_at(
    found: &mut Vec<Difference>,
    alloc: Global,
    before: &Side,
    after: &Side,
    meeting: &Meeting,
) -> Result<(), NoMemory>
    ensures { OnOk result (found.new.items ≡ found.old.items ++ spec.differences_at (spec.logins_of before.now after.now) before.now.table.rows after.now.table.rows meeting.now) }
{
    let logins = Logins {
        before: before.has_login,
        after: after.has_login,
    };
    let firsts = groups_at(alloc, before.table.rows.as_slice(), &meeting.before)?;
    let seconds = groups_at(alloc, after.table.rows.as_slice(), &meeting.after)?;
    for first in firsts.as_slice() {
        push_against(found, alloc, logins, meeting, *first, seconds.as_slice())?;
    }
    Ok(())
}

/// Returns the groups of the rows with the pattern, or of those without a pattern.
fn groups_at<'a>(
    alloc: Global,
    rows: &'a [Row],
    pattern: &Option<Text>,
) -> Result<Vec<&'a Group>, NoMemory>
    ensures { IfOk result (λ groups. map (λ group. group.now) groups.items ≡ spec.groups_at rows.now pattern.now) }
{
    let mut groups = Vec::new(alloc);
    for row in rows {
        push_groups(&mut groups, row, pattern)?;
    }
    Ok(groups)
}

/// Appends the groups of a row, if it has the pattern.
fn push_groups<'a>(
    groups: &mut Vec<&'a Group>,
    row: &'a Row,
    pattern: &Option<Text>,
) -> Result<(), NoMemory>
    ensures { OnOk result (map (λ group. group.now) groups.new.items ≡ map (λ group. group.now) groups.old.items ++ spec.groups_of_row pattern.now row.now) }
{
    if is_same(&row.pattern, pattern) {
        push_all(groups, row.groups.as_slice())
    } else {
        Ok(())
    }
}

fn push_all<'a>(groups: &mut Vec<&'a Group>, others: &'a [Group]) -> Result<(), NoMemory>
    ensures { OnOk result (map (λ group. group.now) groups.new.items ≡ map (λ group. group.now) groups.old.items ++ others.now) }
{
    for group in others {
        groups.push(group)?;
    }
    Ok(())
}

/// Appends the differences of a group before and groups after.
fn push_against(
    found: &mut Vec<Difference>,
    alloc: Global,
    logins: Logins,
    meeting: &Meeting,
    first: &Group,
    seconds: &[&Group],
) -> Result<(), NoMemory>
    ensures { OnOk result (found.new.items ≡ found.old.items ++ flat_map (spec.between logins meeting.now first.now) (map (λ second. second.now) seconds.now)) }
{
    for second in seconds {
        push_between(found, alloc, logins, meeting, first, *second)?;
    }
    Ok(())
}

/// Appends the difference of a group before and a group after, if there is one.
fn push_between(
    found: &mut Vec<Difference>,
    alloc: Global,
    logins: Logins,
    meeting: &Meeting,
    first: &Group,
    second: &Group,
) -> Result<(), NoMemory>
    ensures { OnOk result (found.new.items ≡ found.old.items ++ spec.between logins meeting.now first.now second.now) }
{
    if same_fates(logins, &first.cell.access, &second.cell.access) {
        return Ok(());
    }
    let methods = meet(alloc, &first.methods, &second.methods)?;
    if has_methods(&methods) {
        found.push(difference_of(alloc, logins, meeting, methods, first, second)?)?;
    }
    Ok(())
}

/// Returns the difference in these methods.
fn difference_of(
    alloc: Global,
    logins: Logins,
    meeting: &Meeting,
    methods: Methods,
    first: &Group,
    second: &Group,
) -> Result<Difference, NoMemory>
    ensures { methods ≡ spec.meet first.now.methods second.now.methods → GivesAnswer result (spec.difference_of logins meeting.now first.now second.now) }
{
    Ok(Difference {
        kind: kind_between(logins, &first.cell.access, &second.cell.access),
        before: copied_option(alloc, &meeting.before)?,
        after: copied_option(alloc, &meeting.after)?,
        path: Text::copy_of(alloc, meeting.path.as_str())?,
        methods,
        was: copied_access(alloc, &first.cell.access)?,
        becomes: copied_access(alloc, &second.cell.access)?,
    })
}

fn copied_option(alloc: Global, text: &Option<Text>) -> Result<Option<Text>, NoMemory>
    ensures { GivesAnswer result text.now }
{
    match text {
        Some(text) => Ok(Some(Text::copy_of(alloc, text.as_str())?)),
        None => Ok(None),
    }
}
