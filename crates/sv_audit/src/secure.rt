//! Constraints without their transport requirements.

ghost use Rattle.std.specs.Prelude.{◌≡◌};
ghost use Rattle.sv_text.specs.Gives.{GivesAnswer};
ghost use Rattle.sv_audit.specs.Secure.{secure};

use std::alloc::Global;
use sv_constraints::{Constraint, Transport};
use sv_text::{Listed, NoMemory};

/// Drops the transport requirement of each constraint, so that a table says what is open over TLS (Jakarta Servlet 6.0,
/// section 13.8).
///
/// # Errors
/// `NoMemory` if memory runs out. The constraints are dropped.
pub fn without_transport(
    alloc: Global,
    constraints: Listed<Constraint>,
) -> Result<Listed<Constraint>, NoMemory>
    ensures { GivesAnswer result (secure constraints) }
{
    let mut secured = Vec::new(alloc);
    for constraint in constraints.into_vec() {
        secured.push(Constraint {
            transport: Transport::Absent,
            ..constraint
        })?;
    }
    Ok(Listed::from_vec(secured))
}
