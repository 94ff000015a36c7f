//! The methods that constraints name.

ghost use Rattle.std.specs.Prelude.{◌≡◌, IfOk, map};
ghost use Rattle.sv_policy.specs.Covering.{named_methods};
ghost use Rattle.sv_policy.specs.Uncovered.{rising};

use std::alloc::Global;
use sv_audit::sorted;
use sv_constraints::Constraint;
use sv_policy::named_methods;
use sv_text::NoMemory;

/// Returns the different methods that constraints name at the pattern, in ascending byte order.
///
/// # Errors
/// `NoMemory` if memory runs out.
pub fn rising_names<'a>(
    alloc: Global,
    members: &[&'a Constraint],
    pattern: &str,
) -> Result<Vec<&'a str>, NoMemory>
    ensures { IfOk result (λ names. map (λ name. name.now) names.items ≡ rising (named_methods (map (λ member. member.now) members.now) pattern.now)) }
{
    let names = named_methods(alloc, members, pattern)?;
    sorted(alloc, names.as_slice())
}
