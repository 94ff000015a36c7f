//! The report on constraints in force: a line for each pattern of each of their collections.

ghost use Rattle.std.specs.Prelude.{◌≡◌, ◌++◌, flat_map, OnOk};
ghost use Rattle.std.specs.Fmt.{decimal};
ghost use Rattle.std.specs.String.{string_bytes};
ghost use Rattle.sv_program.specs.Constraints as spec;
ghost use Rattle.sv_text.specs.Gives.{GivesAnswer};

use crate::uncovered_report::{push_methods, push_names};
use std::alloc::Global;
use sv_constraints::{Auth, Collection, Constraint, Methods, Transport};
use sv_mapping::Pattern;
use sv_text::{NoMemory, Text};
use sv_uri::shown_context;

/// Returns a line for each pattern of each collection of the constraints of the context at this path, in their order.
///
/// # Errors
/// Memory ran out.
pub fn constraint_lines(
    alloc: Global,
    path: &str,
    constraints: &[Constraint],
) -> Result<Text, NoMemory>
    ensures { GivesAnswer result (flat_map (spec.constraint_lines path.now) constraints.now) }
{
    let mut lines = String::new(alloc);
    for constraint in constraints {
        push_constraint(alloc, &mut lines, path, constraint)?;
    }
    Ok(Text::from_string(lines))
}

/// Appends the lines of a constraint.
fn push_constraint(
    alloc: Global,
    lines: &mut String,
    path: &str,
    constraint: &Constraint,
) -> Result<(), NoMemory>
    ensures { OnOk result (string_bytes lines.new ≡ string_bytes lines.old ++ spec.constraint_lines path.now constraint.now) }
{
    for collection in constraint.collections.as_slice() {
        push_collection(alloc, lines, path, constraint, collection)?;
    }
    Ok(())
}

/// Appends the lines of a collection.
fn push_collection(
    alloc: Global,
    lines: &mut String,
    path: &str,
    constraint: &Constraint,
    collection: &Collection,
) -> Result<(), NoMemory>
    ensures { OnOk result (string_bytes lines.new ≡ string_bytes lines.old ++ spec.collection_lines path.now constraint.now collection.now) }
{
    let front = front_of(alloc, shown_context(path), constraint.number)?;
    let end = end_of(alloc, constraint, &collection.methods)?;
    push_patterns(
        lines,
        front.as_str(),
        end.as_str(),
        collection.patterns.as_slice(),
    )
}

/// Appends the patterns, each between these texts.
fn push_patterns(
    lines: &mut String,
    front: &str,
    end: &str,
    patterns: &[Pattern],
) -> Result<(), NoMemory>
    ensures { OnOk result (string_bytes lines.new ≡ string_bytes lines.old ++ flat_map (spec.pattern_line front.now end.now) patterns.now) }
{
    for pattern in patterns {
        lines.push_str(front)?;
        lines.push_str(pattern.text())?;
        lines.push_str(end)?;
    }
    Ok(())
}

/// Returns the text before the patterns of a constraint with this number in the context with this shown path.
fn front_of(alloc: Global, context: &str, number: u64) -> Result<Text, NoMemory>
    ensures { GivesAnswer result (spec.front_of context.now number) }
{
    let number = number_text(alloc, number)?;
    let front = format!(in alloc; "constraint context={context} number={number} pattern=")?;
    Ok(Text::from_string(front))
}

fn number_text(alloc: Global, number: u64) -> Result<Text, NoMemory>
    ensures { GivesAnswer result (decimal number) }
{
    Ok(Text::from_string(format!(in alloc; "{number}")?))
}

/// Returns the text after the patterns of a collection with these methods.
fn end_of(alloc: Global, constraint: &Constraint, methods: &Methods) -> Result<Text, NoMemory>
    ensures { GivesAnswer result (spec.end_of constraint.now methods.now) }
{
    let mut names = String::new(alloc);
    push_methods(&mut names, methods)?;
    let mut roles = String::new(alloc);
    push_roles(&mut roles, &constraint.auth)?;
    let transport = transport_name(constraint.transport);
    let end = format!(in alloc; " methods={names} transport={transport} roles={roles}\n")?;
    Ok(Text::from_string(end))
}

/// Returns the name of a transport guarantee.
fn transport_name(transport: Transport) -> &'static str
    ensures { result.now ≡ spec.transport_name transport }
{
    match transport {
        Transport::Absent => "NONE",
        Transport::Plain => "NONE",
        Transport::Integral => "INTEGRAL",
        Transport::Confidential => "CONFIDENTIAL",
    }
}

/// Appends the roles as the line `append` has them.
fn push_roles(line: &mut String, auth: &Auth) -> Result<(), NoMemory>
    ensures { OnOk result (string_bytes line.new ≡ string_bytes line.old ++ spec.roles_text auth.now) }
{
    match auth {
        Auth::Absent => Ok(line.push_str("open")?),
        Auth::Roles(names) => push_admitted(line, names.as_slice()),
    }
}

/// Appends the names of the admitted roles.
fn push_admitted(line: &mut String, names: &[Text]) -> Result<(), NoMemory>
    ensures { OnOk result (string_bytes line.new ≡ string_bytes line.old ++ spec.admitted_text names.now) }
{
    if names.is_empty() {
        line.push_str("nobody")?;
        return Ok(());
    }
    push_names(line, names)
}
