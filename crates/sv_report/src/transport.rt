//! Whether requests need a protected transport.

ghost use Rattle.std.specs.Prelude.{◌≡◌, ◌++◌, OnOk, string_bytes};
ghost use Rattle.std.specs.List.{list_any};
ghost use Rattle.sv_report.specs.Text as spec;

use crate::report::{ContextReport, ReportedRow};
use sv_audit::{Access, Group};
use sv_findings::Reach;
use sv_text::NoMemory;

/// Returns whether some request of a context is refused only since its connection is plain. Then the rows and the findings
/// do not say who enters over a protected transport.
pub fn has_tls(context: &ContextReport) -> bool
    ensures { result ≡ spec.has_tls context.now }
{
    context.rows.as_slice().iter().any(|row| row_has_tls(row))
}

/// Returns the same of a row.
fn row_has_tls(row: &ReportedRow) -> bool
    ensures { result ≡ spec.row_has_tls row.now }
{
    match &row.reach {
        Reach::Reached => groups_have_tls(row.row.groups.as_slice()),
        Reach::Hidden => false,
        Reach::Elsewhere(_) => false,
        Reach::Unmatched => false,
    }
}

fn groups_have_tls(groups: &[Group]) -> bool
    ensures { result ≡ list_any (λ group. spec.needs_tls group.cell.access) groups.now }
{
    groups.iter().any(|group| needs_tls(&group.cell.access))
}

fn needs_tls(access: &Access) -> bool
    ensures { result ≡ spec.needs_tls access.now }
{
    matches!(access, Access::NeedsTls)
}

/// Appends a line if some request of a context needs TLS.
pub(crate) fn push_transport(text: &mut String, context: &ContextReport) -> Result<(), NoMemory>
    ensures { OnOk result (string_bytes text.new ≡ string_bytes text.old ++ spec.transport_line context.now) }
{
    if !has_tls(context) {
        return Ok(());
    }
    Ok(text.push_str("some requests need TLS: --secure shows who enters then, and its findings\n")?)
}
