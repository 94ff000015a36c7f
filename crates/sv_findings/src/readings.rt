//! Prefix patterns at which a server that takes only patterns which cover the method decides otherwise.

ghost use Rattle.std.specs.Prelude.{◌≡◌, ◌++◌, IfOk, IsTrue, OnOk, Some, filter, find, map};
ghost use Rattle.std.specs.List.{flat_map, list_any};
ghost use Rattle.std.specs.Option.{option_copied};
ghost use Rattle.sv_constraints.specs.Covering.{covers_method};
ghost use Rattle.sv_constraints.specs.declared.constraint.Methods.TheVariants as covered;
ghost use Rattle.sv_mapping.specs.Form.{form_seen};
ghost use Rattle.sv_text.specs.Gives.{GivesAnswer};
ghost use Rattle.sv_findings.specs.Readings as spec;
ghost use Rattle.sv_findings.specs.Uncovered.{is_left_out};
ghost use Rattle.sv_findings.specs.declared.finding.Finding.TheVariants as finding;

use crate::dead::is_tried_late;
use crate::finding::Finding;
use crate::findings::is_left_out;
use crate::heads::covers_method;
use std::alloc::Global;
use std::marker::Model;
use sv_audit::{Group, Row, form_of, is_extension_pattern, is_open, matches_nothing};
use sv_constraints::Methods;
use sv_mapping::Form;
use sv_policy::copied_methods;
use sv_text::{NoMemory, Text};

/// The rows that are tried late, in the order in which they are tried, with the methods asked last and the answer: most
/// rows leave the same methods uncovered. Contracts see the rows.
#[derive(Drop)]
struct LateRows<'s, 'r, 'm> {
    rows: &'s [&'r Row],
    methods: Option<&'m Methods>,
    /// The pattern of the first row that restricts one of the methods.
    answer: Option<&'r str>,
}

impl<'s, 'r, 'm> Model for LateRows<'s, 'r, 'm> {
    ghost use Rattle.std.specs.Prelude.{◌≡◌, List, Some, map};
    ghost use Rattle.std.specs.Option.{option_copied};
    ghost use Rattle.sv_constraints.specs.declared.constraint.Methods.{Methods};
    ghost use Rattle.sv_audit.specs.declared.rows.Row.{Row};
    ghost use Rattle.sv_findings.specs.Readings.{first_restricting};

    ghost Value = { List Row };

    ghost view = { λ late. map (λ row. row.now) late.rows.now };

    ghost invariant = { λ late. (asked : Methods) → option_copied late.methods ≡ Some asked → option_copied late.answer ≡ first_restricting (map (λ row. row.now) late.rows.now) asked };
}

impl<'s, 'r, 'm> LateRows<'s, 'r, 'm> {
    fn of(rows: &'s [&'r Row]) -> LateRows<'s, 'r, 'm>
        ensures { result ≡ map (λ row. row.now) rows.now }
    {
        LateRows {
            rows,
            methods: None,
            answer: None,
        }
    }

    /// Returns the pattern of the first row at which one of the methods is not open to everyone.
    fn first_restricting(&mut self, methods: &'m Methods) -> Option<&'r str>
        ensures answer { option_copied result ≡ spec.first_restricting self.old methods.now }
        ensures kept { self.new ≡ self.old }
    {
        if !is_asked(self.methods, methods) {
            self.answer = first_restricting(self.rows, methods);
            self.methods = Some(methods);
        }
        self.answer
    }
}

fn is_asked(asked: Option<&Methods>, methods: &Methods) -> bool
    ensures { IsTrue result → option_copied asked.entry ≡ Some methods.now }
{
    match asked {
        Some(asked) => are_same(asked, methods),
        None => false,
    }
}

/// Returns whether both sets are written with the same names in the same order.
fn are_same(methods: &Methods, others: &Methods) -> bool
    ensures { IsTrue result → methods.now ≡ others.now }
{
    match methods {
        Methods::All => matches!(others, Methods::All),
        Methods::Only(names) => are_only(others, names.as_slice()),
        Methods::Except(names) => are_except(others, names.as_slice()),
    }
}

fn are_only(methods: &Methods, names: &[Text]) -> bool
    ensures { IsTrue result → methods.now ≡ covered.Only names.now }
{
    match methods {
        Methods::All => false,
        Methods::Only(others) => are_same_names(others.as_slice(), names),
        Methods::Except(_) => false,
    }
}

fn are_except(methods: &Methods, names: &[Text]) -> bool
    ensures { IsTrue result → methods.now ≡ covered.Except names.now }
{
    match methods {
        Methods::All => false,
        Methods::Only(_) => false,
        Methods::Except(others) => are_same_names(others.as_slice(), names),
    }
}

fn are_same_names(names: &[Text], others: &[Text]) -> bool
    ensures { IsTrue result → names.now ≡ others.now }
{
    let mut left = others;
    for name in names {
        let Some((other, rest)) = left.split_first() else {
            return false;
        };
        if name.as_str() != other.as_str() {
            return false;
        }
        left = rest;
    }
    left.is_empty()
}

/// Appends the prefix patterns of met rows with methods that no constraint covers there, although one of them is not open
/// to everyone at an extension pattern or `/` of all rows. Such a pattern counts if it matches some canonical path: where
/// `/*` does not cover the method, another server asks it next. It asks extension patterns before `/`.
pub fn push_read_otherwise(
    findings: &mut Vec<Finding>,
    alloc: Global,
    all: &[Row],
    met: &[&Row],
) -> Result<(), NoMemory>
    ensures { OnOk result (findings.new.items ≡ findings.old.items ++ spec.read_otherwise all.now (map (λ row. row.now) met.now)) }
{
    let late = late_rows(alloc, all)?;
    let late = extensions_first(alloc, late.as_slice())?;
    let mut late = LateRows::of(late.as_slice());
    push_read_before(findings, alloc, &mut late, met)
}

/// Returns the rows of extension patterns and of `/` that match some canonical path.
fn late_rows(alloc: Global, rows: &[Row]) -> Result<Vec<&Row>, NoMemory>
    ensures { IfOk result (λ late. map (λ row. row.now) late.items ≡ filter spec.is_late rows.now) }
{
    let mut late = Vec::new(alloc);
    for row in rows {
        if is_late(row) {
            late.push(row)?;
        }
    }
    Ok(late)
}

/// Returns the rows of extension patterns, and then the others.
fn extensions_first<'a>(alloc: Global, rows: &[&'a Row]) -> Result<Vec<&'a Row>, NoMemory>
    ensures { IfOk result (λ ordered. map (λ row. row.now) ordered.items ≡ spec.extensions_first (map (λ row. row.now) rows.now)) }
{
    let mut ordered = Vec::new(alloc);
    push_extensions(&mut ordered, rows)?;
    push_others(&mut ordered, rows)?;
    Ok(ordered)
}

fn push_extensions<'a>(ordered: &mut Vec<&'a Row>, rows: &[&'a Row]) -> Result<(), NoMemory>
    ensures { OnOk result (map (λ row. row.now) ordered.new.items ≡ map (λ row. row.now) ordered.old.items ++ filter spec.is_extension_row (map (λ row. row.now) rows.now)) }
{
    for row in rows {
        if is_extension_row(row) {
            ordered.push(*row)?;
        }
    }
    Ok(())
}

fn push_others<'a>(ordered: &mut Vec<&'a Row>, rows: &[&'a Row]) -> Result<(), NoMemory>
    ensures { OnOk result (map (λ row. row.now) ordered.new.items ≡ map (λ row. row.now) ordered.old.items ++ filter spec.is_other_row (map (λ row. row.now) rows.now)) }
{
    for row in rows {
        if !is_extension_row(row) {
            ordered.push(*row)?;
        }
    }
    Ok(())
}

fn is_extension_row(row: &Row) -> bool
    ensures { result ≡ spec.is_extension_row row.now }
{
    match &row.pattern {
        Some(pattern) => is_extension_pattern(pattern.as_str()),
        None => false,
    }
}

fn is_late(row: &Row) -> bool
    ensures { result ≡ spec.is_late row.now }
{
    match &row.pattern {
        Some(pattern) => is_late_match(pattern.as_str()),
        None => false,
    }
}

fn is_late_match(pattern: &str) -> bool
    ensures { result ≡ spec.is_late_match pattern.now }
{
    is_tried_late(pattern) && !matches_nothing(pattern)
}

fn push_read_before<'m>(
    findings: &mut Vec<Finding>,
    alloc: Global,
    late: &mut LateRows<'_, '_, 'm>,
    rows: &[&'m Row],
) -> Result<(), NoMemory>
    ensures { OnOk result (findings.new.items ≡ findings.old.items
        ++ flat_map (λ row. spec.read_at late.old row.pattern row.groups) (map (λ row. row.now) rows.now)) }
{
    for row in rows {
        push_read_in_row(findings, alloc, late, *row)?;
    }
    Ok(())
}

fn push_read_in_row<'m>(
    findings: &mut Vec<Finding>,
    alloc: Global,
    late: &mut LateRows<'_, '_, 'm>,
    row: &'m Row,
) -> Result<(), NoMemory>
    ensures pushed { OnOk result (findings.new.items ≡ findings.old.items ++ spec.read_at late.old row.now.pattern row.now.groups) }
    ensures kept { late.new ≡ late.old }
{
    push_read_at(findings, alloc, late, &row.pattern, row.groups.as_slice())
}

fn push_read_at<'m>(
    findings: &mut Vec<Finding>,
    alloc: Global,
    late: &mut LateRows<'_, '_, 'm>,
    pattern: &Option<Text>,
    groups: &'m [Group],
) -> Result<(), NoMemory>
    ensures pushed { OnOk result (findings.new.items ≡ findings.old.items ++ spec.read_at late.old pattern.now groups.now) }
    ensures kept { late.new ≡ late.old }
{
    let Some(pattern) = pattern else {
        return Ok(());
    };
    if is_prefix(form_of(pattern.as_str())) {
        return push_read_in(findings, alloc, late, pattern.as_str(), groups);
    }
    Ok(())
}

fn is_prefix(form: Form<'_>) -> bool
    ensures { result ≡ spec.is_prefix (form_seen form.entry) }
{
    matches!(form, Form::Prefix(_))
}

/// Appends a prefix pattern for each group of uncovered methods of which such a row restricts one.
fn push_read_in<'m>(
    findings: &mut Vec<Finding>,
    alloc: Global,
    late: &mut LateRows<'_, '_, 'm>,
    pattern: &str,
    groups: &'m [Group],
) -> Result<(), NoMemory>
    ensures pushed { OnOk result (findings.new.items ≡ findings.old.items
        ++ flat_map (λ group. spec.read_as late.old pattern.now group.methods) (filter is_left_out groups.now)) }
    ensures kept { late.new ≡ late.old }
{
    for group in groups {
        if is_left_out(group) {
            push_read_as(findings, alloc, late, pattern, &group.methods)?;
        }
    }
    Ok(())
}

fn push_read_as<'m>(
    findings: &mut Vec<Finding>,
    alloc: Global,
    late: &mut LateRows<'_, '_, 'm>,
    pattern: &str,
    methods: &'m Methods,
) -> Result<(), NoMemory>
    ensures pushed { OnOk result (findings.new.items ≡ findings.old.items ++ spec.read_as late.old pattern.now methods.now) }
    ensures kept { late.new ≡ late.old }
{
    if let Some(other) = late.first_restricting(methods) {
        findings.push(Finding::ReadOtherwise(
            Text::copy_of(alloc, pattern)?,
            copied_methods(alloc, methods)?,
            Text::copy_of(alloc, other)?,
        ))?;
    }
    Ok(())
}

/// Returns the pattern of the first row at which one of the methods is not open to everyone.
fn first_restricting<'a>(rows: &[&'a Row], methods: &Methods) -> Option<&'a str>
    ensures { option_copied result ≡ spec.first_restricting (map (λ row. row.now) rows.now) methods.now }
{
    for row in rows {
        if restricts_one(methods, row) {
            return pattern_of(*row);
        }
    }
    None
}

fn pattern_of(row: &Row) -> Option<&str>
    ensures { option_copied result ≡ row.now.pattern }
{
    match &row.pattern {
        Some(pattern) => Some(pattern.as_str()),
        None => None,
    }
}

/// Returns whether one of the methods is not open to everyone at the pattern of the row.
fn restricts_one(methods: &Methods, row: &Row) -> bool
    ensures { result ≡ spec.restricts_one methods.now row.now }
{
    row.groups
        .as_slice()
        .iter()
        .any(|group| restricts_part(methods, group))
}

fn restricts_part(methods: &Methods, group: &Group) -> bool
    ensures { result ≡ spec.restricts_part methods.now group.now }
{
    !is_open(&group.cell.access) && share_method(methods, &group.methods)
}

/// Returns whether some method is in both sets.
fn share_method(methods: &Methods, others: &Methods) -> bool
    ensures { result ≡ spec.share_method methods.now others.now }
{
    match methods {
        Methods::All => holds_one(methods, others),
        Methods::Only(names) => covers_any(others, names.as_slice()),
        Methods::Except(_) => holds_one(methods, others),
    }
}

/// Returns whether one of the others is among all methods except some.
fn holds_one(methods: &Methods, others: &Methods) -> bool
    ensures { result ≡ spec.holds_one methods.now others.now }
{
    match others {
        Methods::All => true,
        Methods::Only(names) => covers_any(methods, names.as_slice()),
        Methods::Except(_) => true,
    }
}

fn covers_any(methods: &Methods, names: &[Text]) -> bool
    ensures { result ≡ list_any (covers_method methods.now) names.now }
{
    names
        .iter()
        .any(|name| covers_method(methods, name.as_str()))
}
