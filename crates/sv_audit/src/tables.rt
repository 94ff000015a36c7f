//! The access table of constraints.

ghost use Rattle.std.specs.Prelude.{◌≡◌, ◌++◌, ◌∷◌, [], IfOk, List, OnOk, filter, if◌then◌else◌, map, not};
ghost use Rattle.sv_constraints.specs.Covering.{all_patterns};
ghost use Rattle.sv_constraints.specs.declared.constraint.Constraint.{Constraint};
ghost use Rattle.sv_mapping.specs.Pattern.{is_extension_pattern};
ghost use Rattle.sv_policy.specs.Groups.{IsGrouped};
ghost use Rattle.sv_text.specs.Gives.{GivesAnswer};
ghost use Rattle.sv_audit.specs.Access.{asking};
ghost use Rattle.sv_audit.specs.Rows.{in_row_order, match_every_path, other_paths, row_for, table_for, table_of};

use crate::access::{Access, Cell, CellCaller};
use crate::focus::focused;
use crate::groups::row_for;
use crate::order::sorted;
use crate::patterns::{all_patterns, is_among, is_extension_pattern};
use crate::rows::{Group, Row, Table};
use std::alloc::Global;
use sv_constraints::{Constraint, Methods, Rules};
use sv_policy::{Groups, grouped};
use sv_text::{Listed, NoMemory};

/// Returns the access table of constraints and their rules (Jakarta Servlet 6.0, section 13.8). The constraints may be
/// in any order and have any numbers. Its numbers are those for callers who have just what each access asks for.
///
/// # Errors
/// `NoMemory` if memory runs out.
pub fn table_of(alloc: Global, constraints: &[Constraint], rules: &Rules) -> Result<Table, NoMemory>
    ensures { GivesAnswer result (table_of constraints.now rules.now) }
{
    table_for(alloc, CellCaller::Fitting, constraints, rules)
}

/// Returns the same table with the numbers for this caller. Methods share a group if the same callers may use them and
/// the same constraint decides this caller's requests.
///
/// # Errors
/// `NoMemory` if memory runs out.
pub fn table_for(
    alloc: Global,
    whose: CellCaller<'_>,
    constraints: &[Constraint],
    rules: &Rules,
) -> Result<Table, NoMemory>
    ensures { GivesAnswer result (table_for (asking whose.entry) constraints.now rules.now) }
{
    let patterns = in_row_order(alloc, constraints)?;
    let mut rows = pattern_rows(alloc, whose, constraints, rules, patterns.as_slice())?;
    push_other_paths(&mut rows, alloc, patterns.as_slice())?;
    Ok(Table {
        rows: Listed::from_vec(rows),
    })
}

/// Returns the patterns of constraints in the order of their rows: extension patterns last.
fn in_row_order(alloc: Global, constraints: &[Constraint]) -> Result<Vec<&str>, NoMemory>
    ensures { IfOk result (λ patterns. map (λ pattern. pattern.now) patterns.items ≡ in_row_order (all_patterns constraints.now)) }
{
    let patterns = sorted(alloc, all_patterns(alloc, constraints)?.as_slice())?;
    let mut ordered = Vec::with_capacity(alloc, patterns.len())?;
    push_path_patterns(&mut ordered, patterns.as_slice())?;
    push_extension_patterns(&mut ordered, patterns.as_slice())?;
    Ok(ordered)
}

/// Appends the patterns that are no extension patterns.
fn push_path_patterns<'a>(ordered: &mut Vec<&'a str>, patterns: &[&'a str]) -> Result<(), NoMemory>
    ensures { OnOk result (map (λ pattern. pattern.now) ordered.new.items ≡ map (λ pattern. pattern.now) ordered.old.items ++
        filter (λ pattern. not (is_extension_pattern pattern)) (map (λ pattern. pattern.now) patterns.now)) }
{
    for pattern in patterns {
        if !is_extension_pattern(*pattern) {
            ordered.push(*pattern)?;
        }
    }
    Ok(())
}

/// Appends the extension patterns.
fn push_extension_patterns<'a>(
    ordered: &mut Vec<&'a str>,
    patterns: &[&'a str],
) -> Result<(), NoMemory>
    ensures { OnOk result (map (λ pattern. pattern.now) ordered.new.items ≡ map (λ pattern. pattern.now) ordered.old.items ++
        filter is_extension_pattern (map (λ pattern. pattern.now) patterns.now)) }
{
    for pattern in patterns {
        if is_extension_pattern(*pattern) {
            ordered.push(*pattern)?;
        }
    }
    Ok(())
}

/// Returns whether each path matches one of the patterns.
fn match_every_path(patterns: &[&str]) -> bool
    ensures { result ≡ match_every_path (map (λ pattern. pattern.now) patterns.now) }
{
    is_among(patterns, "/") || is_among(patterns, "/*")
}

/// Returns the rows of the patterns, in order.
fn pattern_rows(
    alloc: Global,
    whose: CellCaller<'_>,
    constraints: &[Constraint],
    rules: &Rules,
    patterns: &[&str],
) -> Result<Vec<Row>, NoMemory>
    ensures { IfOk result (λ rows. rows.items ≡ map (row_for (asking whose.entry) constraints.now rules.now) (map (λ pattern. pattern.now) patterns.now)) }
{
    let groups = grouped(alloc, constraints)?;
    let mut rows = Vec::with_capacity(alloc, patterns.len())?;
    for pattern in patterns {
        rows.push(row_among(alloc, whose, rules, &groups, *pattern)?)?;
    }
    Ok(rows)
}

/// Returns the row of a pattern.
fn row_among(
    alloc: Global,
    whose: CellCaller<'_>,
    rules: &Rules,
    groups: &Groups<'_>,
    pattern: &str,
) -> Result<Row, NoMemory>
    ensures { (constraints : List Constraint) → IsGrouped constraints groups.now →
        GivesAnswer result (row_for (asking whose.entry) constraints rules.now pattern.now) }
{
    match groups.on(pattern) {
        Some(members) => focused_row(alloc, whose, rules, pattern, members.as_slice()),
        None => row_for(alloc, whose, rules, pattern, &[]),
    }
}

/// Returns the row of a pattern by copies of the constraints on it, which have no other patterns.
fn focused_row(
    alloc: Global,
    whose: CellCaller<'_>,
    rules: &Rules,
    pattern: &str,
    members: &[&Constraint],
) -> Result<Row, NoMemory>
    ensures { GivesAnswer result (row_for (asking whose.entry) (map (λ member. member.now) members.now) rules.now pattern.now) }
{
    let copies = focused(alloc, pattern, members)?;
    let borrowed: Vec<&Constraint> = copies.iter().collect(alloc)?;
    row_for(alloc, whose, rules, pattern, borrowed.as_slice())
}

/// Appends the row of the paths that no pattern matches, unless each path matches one of the patterns.
fn push_other_paths(rows: &mut Vec<Row>, alloc: Global, patterns: &[&str]) -> Result<(), NoMemory>
    ensures { OnOk result (rows.new.items ≡ rows.old.items ++ (if match_every_path (map (λ pattern. pattern.now) patterns.now) then [] else other_paths ∷ [])) }
{
    if match_every_path(patterns) {
        return Ok(());
    }
    rows.push(other_paths(alloc)?)?;
    Ok(())
}

/// Returns the row of the paths that no pattern matches.
fn other_paths(alloc: Global) -> Result<Row, NoMemory>
    ensures { GivesAnswer result other_paths }
{
    let mut groups = Vec::new(alloc);
    groups.push(Group {
        methods: Methods::Except(Listed::from_vec(Vec::new(alloc))),
        cell: Cell {
            access: Access::Unconstrained,
            constraint: None,
        },
    })?;
    Ok(Row {
        pattern: None,
        groups: Listed::from_vec(groups),
    })
}
