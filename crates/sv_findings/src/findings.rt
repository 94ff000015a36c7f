//! The findings of constraints and their access table.

ghost use Rattle.std.specs.Prelude.{◌≡◌, ◌++◌, IfOk, OnOk, filter, map};
ghost use Rattle.std.specs.List.{flat_map, list_all};
ghost use Rattle.sv_text.specs.Gives.{GivesAnswer};
ghost use Rattle.sv_constraints.specs.Covering.{all_patterns};
ghost use Rattle.sv_findings.specs.Findings as spec;
ghost use Rattle.sv_findings.specs.LoginNeeds.{login_needs};
ghost use Rattle.sv_findings.specs.MetRows.{is_row_met};
ghost use Rattle.sv_findings.specs.Uncovered as uncovered;
ghost use Rattle.sv_findings.specs.declared.finding.Finding.TheVariants as finding;

use crate::dead::{push_escaped, push_ineffective};
use crate::finding::Finding;
use crate::guarded_context::GuardedContext;
use crate::heads::push_heads;
use crate::listed_patterns::ListedPatterns;
use crate::login_needs::push_login_needs;
use crate::met_rows::met_rows;
use crate::opened::push_opened;
use crate::overruled::push_overruled;
use crate::reach::Reaches;
use crate::readings::push_read_otherwise;
use crate::role_findings::push_by_role;
use crate::surroundings::{Surroundings, compared};
use crate::unreached::push_unreached;
use crate::unserved::push_unserved;
use std::alloc::Global;
use sv_audit::{Access, Group, Row, Table};
use sv_constraints::{Constraint, Rules};
use sv_policy::copied_methods;
use sv_text::{Listed, NoMemory, Text};

/// Returns the findings of constraints, their rules, their access table and what surrounds them, in the order of the
/// variants of [`Finding`]. What a row opens is looked for only at patterns that requests meet: they may reach
/// them, and have them as their best match. Constraints without which each request is decided alike are looked for among
/// those with their transport requirements.
///
/// # Errors
/// `NoMemory` if memory runs out.
pub fn findings_of(
    alloc: Global,
    constraints: &[Constraint],
    rules: &Rules,
    table: &Table,
    surroundings: &Surroundings,
) -> Result<Listed<Finding>, NoMemory>
    ensures { GivesAnswer result (spec.findings_of constraints.now rules.now table.now surroundings.now) }
{
    let reaches = Reaches::of(
        alloc,
        surroundings.contexts.as_slice(),
        surroundings.path.as_str(),
    )?;
    let mut findings = Vec::new(alloc);
    let rows = table_rows(alloc, &reaches, constraints, table.rows.as_slice())?;
    push_by_row(
        &mut findings,
        alloc,
        constraints,
        rules,
        surroundings.has_login,
        rows.all,
        rows.met.as_slice(),
    )?;
    push_by_pattern(
        &mut findings,
        alloc,
        constraints,
        rules,
        &reaches,
        surroundings,
    )?;
    push_by_page(
        &mut findings,
        alloc,
        constraints,
        rules,
        &reaches,
        surroundings,
        rows.met.as_slice(),
    )?;
    push_by_role(
        &mut findings,
        alloc,
        rules.declared.as_slice(),
        &surroundings.held,
        constraints,
    )?;
    Ok(Listed::from_vec(findings))
}

/// The rows of an access table, and those of them that requests meet.
#[derive(Drop)]
struct TableRows<'a> {
    all: &'a [Row],
    met: Vec<&'a Row>,
}

fn table_rows<'a>(
    alloc: Global,
    reaches: &Reaches<'_>,
    constraints: &[Constraint],
    rows: &'a [Row],
) -> Result<TableRows<'a>, NoMemory>
    ensures { IfOk result (λ its. (its.all.now ≡ rows.now)
        × (map (λ row. row.now) its.met.items ≡ filter (is_row_met reaches.now.0 reaches.now.1 (all_patterns constraints.now)) rows.now)) }
{
    let listed = ListedPatterns::of(alloc, constraints)?;
    let met = met_rows(alloc, reaches, &listed, rows)?;
    Ok(TableRows { all: rows, met })
}

/// Appends the findings of rows that requests meet, given whether there is a login configuration, and all rows of the
/// table.
fn push_by_row(
    findings: &mut Vec<Finding>,
    alloc: Global,
    constraints: &[Constraint],
    rules: &Rules,
    has_login: bool,
    all: &[Row],
    met: &[&Row],
) -> Result<(), NoMemory>
    ensures { OnOk result (findings.new.items ≡ findings.old.items
        ++ spec.row_findings constraints.now has_login all.now (map (λ row. row.now) met.now)) }
{
    push_opened(findings, alloc, constraints, rules, met)?;
    push_uncovered(findings, alloc, met)?;
    push_read_otherwise(findings, alloc, all, met)?;
    push_heads(findings, alloc, has_login, met)
}

/// Appends the findings of the patterns of the constraints.
fn push_by_pattern(
    findings: &mut Vec<Finding>,
    alloc: Global,
    constraints: &[Constraint],
    rules: &Rules,
    reaches: &Reaches<'_>,
    surroundings: &Surroundings,
) -> Result<(), NoMemory>
    ensures { OnOk result (findings.new.items ≡ findings.old.items ++ spec.pattern_findings constraints.now rules.now reaches.now.0 reaches.now.1 surroundings.now) }
{
    push_ineffective(findings, alloc, constraints)?;
    push_overruled(findings, alloc, compared(surroundings, constraints), rules)?;
    push_unreached(findings, alloc, reaches, constraints)?;
    push_unserved(findings, alloc, reaches, surroundings, constraints)?;
    push_escaped(findings, alloc, constraints)
}

/// Appends the findings of the login page, given the rows that requests meet.
fn push_by_page(
    findings: &mut Vec<Finding>,
    alloc: Global,
    constraints: &[Constraint],
    rules: &Rules,
    reaches: &Reaches<'_>,
    surroundings: &Surroundings,
    met: &[&Row],
) -> Result<(), NoMemory>
    ensures { OnOk result (findings.new.items ≡ findings.old.items
        ++ login_needs reaches.now.0 reaches.now.1 constraints.now rules.now surroundings.now.has_login (map (λ row. row.now) met.now) surroundings.now.login_page) }
{
    let context = GuardedContext {
        reaches,
        constraints,
        rules,
    };
    push_login_needs(
        findings,
        alloc,
        &context,
        surroundings.has_login,
        met,
        &surroundings.login_page,
    )
}

fn push_uncovered(findings: &mut Vec<Finding>, alloc: Global, rows: &[&Row]) -> Result<(), NoMemory>
    ensures { OnOk result (findings.new.items ≡ findings.old.items ++ flat_map (λ row. uncovered.uncovered_at row.pattern row.groups) (map (λ row. row.now) rows.now)) }
{
    for row in rows {
        push_uncovered_at(findings, alloc, &row.pattern, row.groups.as_slice())?;
    }
    Ok(())
}

/// Appends the methods that are left open at a pattern, unless all are.
fn push_uncovered_at(
    findings: &mut Vec<Finding>,
    alloc: Global,
    pattern: &Option<Text>,
    groups: &[Group],
) -> Result<(), NoMemory>
    ensures { OnOk result (findings.new.items ≡ findings.old.items ++ uncovered.uncovered_at pattern.now groups.now) }
{
    let Some(pattern) = pattern else {
        return Ok(());
    };
    if are_left_out(groups) {
        return Ok(());
    }
    push_left_out(findings, alloc, pattern.as_str(), groups)
}

fn push_left_out(
    findings: &mut Vec<Finding>,
    alloc: Global,
    pattern: &str,
    groups: &[Group],
) -> Result<(), NoMemory>
    ensures { OnOk result (findings.new.items ≡ findings.old.items ++ map (λ group. finding.Uncovered pattern.now group.methods) (filter uncovered.is_left_out groups.now)) }
{
    for group in groups {
        if is_left_out(group) {
            findings.push(Finding::Uncovered(
                Text::copy_of(alloc, pattern)?,
                copied_methods(alloc, &group.methods)?,
            ))?;
        }
    }
    Ok(())
}

fn are_left_out(groups: &[Group]) -> bool
    ensures { result ≡ list_all uncovered.is_left_out groups.now }
{
    groups.iter().all(is_left_out)
}

/// Returns whether everyone may use the methods of the group since no constraint covers them.
pub fn is_left_out(group: &Group) -> bool
    ensures { result ≡ uncovered.is_left_out group.now }
{
    is_left_open(&group.cell.access)
}

fn is_left_open(access: &Access) -> bool
    ensures { result ≡ uncovered.is_left_open access.now }
{
    matches!(access, Access::Uncovered)
}
