//! The rows of a context's access table, as a viewer is shown them.

ghost use Rattle.std.specs.Prelude.{◌≡◌, Some, option_copied};
ghost use Rattle.sv_audit.specs.Visitors.{known};
ghost use Rattle.sv_report.specs.Viewers.{caller_of};
ghost use Rattle.sv_text.specs.Gives.{GivesAnswer};
ghost use Rattle.sv_audit_command.specs.ContextReports as spec;

use std::alloc::Global;
use sv_audit::{CellCaller, Row, Table, table_for};
use sv_audited_contexts::AuditedContext;
use sv_realm::Caller;
use sv_report::Viewer;
use sv_text::{Listed, NoMemory, Text, copied_texts};

/// Returns the rows of the access table of a context. With a viewer, the numbers are those of the constraints that decide
/// the viewer's requests. Without a login configuration the viewer cannot log in (Jakarta Servlet 6.0, section 13.6).
pub(crate) fn shown_rows(
    alloc: Global,
    context: &AuditedContext,
    viewer: &Option<Viewer>,
    table: Table,
) -> Result<Listed<Row>, NoMemory>
    ensures { GivesAnswer result (spec.shown_rows context.now viewer.now table) }
{
    match viewer {
        None => Ok(table.rows),
        Some(viewer) => viewer_rows(alloc, context, viewer),
    }
}

fn viewer_rows(
    alloc: Global,
    context: &AuditedContext,
    viewer: &Viewer,
) -> Result<Listed<Row>, NoMemory>
    ensures { GivesAnswer result (spec.viewer_rows context.now viewer.now) }
{
    let caller = caller_of(alloc, viewer)?;
    let whose = CellCaller::Given(known(context.has_login, &caller));
    let table = table_for(alloc, whose, context.constraints.as_slice(), &context.rules)?;
    Ok(table.rows)
}

/// Returns the viewer as a caller, who is logged in.
fn caller_of(alloc: Global, viewer: &Viewer) -> Result<Caller, NoMemory>
    ensures { GivesAnswer result (caller_of viewer.now) }
{
    Ok(Caller {
        number: 0,
        name: Text::copy_of(alloc, viewer.name.as_str())?,
        roles: copied_texts(alloc, viewer.roles.as_slice())?,
    })
}

/// Returns the caller, unless nobody can log in.
fn known(has_login: bool, caller: &Caller) -> Option<&Caller>
    ensures { option_copied result ≡ known has_login (Some caller.now) }
{
    if has_login { Some(caller) } else { None }
}
