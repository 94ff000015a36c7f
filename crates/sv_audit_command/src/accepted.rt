//! The findings that an accepting file names by their keys.

ghost use Rattle.std.specs.Prelude.{◌≡◌, ℕ, List, IfOk};
ghost use Rattle.sv_descriptor.specs.Names.{HaveSame};
ghost use Rattle.sv_audited_contexts.specs.LineFile.{lines_of};
ghost use Rattle.sv_audit_command.specs.Accepted as spec;

use std::alloc::Global;
use sv_audited_contexts::parts;
use sv_descriptor::Names;
use sv_text::NoMemory;

/// Returns the lines of the text of an accepting file as a set.
pub(crate) fn accepted_lines(alloc: Global, accepted: &str) -> Result<Names<'_>, NoMemory>
    ensures { IfOk result (λ lines. HaveSame lines (lines_of accepted.now)) }
{
    let parts = parts(alloc, accepted)?;
    let mut lines = Names::new(alloc);
    for part in parts.as_slice() {
        lines.enter(*part)?;
    }
    Ok(lines)
}

/// Returns whether the key is a line of an accepting file. A key is never empty and never begins with `#`, so empty
/// lines and comments mean nothing.
pub(crate) fn is_accepted(lines: &Names<'_>, key: &str) -> bool
    ensures { (accepted : List ℕ) → HaveSame lines.now (lines_of accepted) → result ≡ spec.is_accepted accepted key.now }
{
    lines.contains(key)
}
