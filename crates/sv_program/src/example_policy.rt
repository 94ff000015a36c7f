//! The fixed policy of the command `first`.

ghost use Rattle.std.specs.Prelude.{◌≡◌, [], ◌∷◌, IfOk, IsTrue};
ghost use Rattle.sv_text.specs.Gives.{GivesAnswer};
ghost use Rattle.sv_mapping.specs.Pattern.{is_pattern};
ghost use Rattle.sv_program.specs.ExamplePolicy.{constraint_on, example_constraints};

use std::alloc::Global;
use sv_constraints::{Auth, Collection, Constraint, Methods, Transport};
use sv_mapping::{Pattern, PatternFault};
use sv_text::{Listed, NoMemory, Text};

/// Returns the constraints of the example policy. The first requires the role `manager` everywhere. The second requires
/// it below `/pub/`, for GET only.
pub fn example_constraints(alloc: Global) -> Result<Vec<Constraint>, NoMemory>
    ensures { IfOk result (λ policy. policy.items ≡ example_constraints) }
{
    let get = one(alloc, Text::copy_of(alloc, "GET")?)?;
    let mut policy = Vec::new(alloc);
    policy.push(constraint_on(alloc, 1, "/*", Methods::All)?)?;
    policy.push(constraint_on(alloc, 2, "/pub/*", Methods::Only(get))?)?;
    Ok(policy)
}

/// Returns the constraint of this number that requires the role `manager` at one pattern.
fn constraint_on(
    alloc: Global,
    number: u64,
    pattern: &str,
    methods: Methods,
) -> Result<Constraint, NoMemory>
    requires { IsTrue (is_pattern pattern.now) }
    ensures { GivesAnswer result (constraint_on number pattern.now methods) }
{
    let pattern = match Pattern::parse(alloc, pattern) {
        Ok(pattern) => pattern,
        Err(PatternFault::BadPattern) => unreachable!(),
        Err(PatternFault::NoMemory) => return Err(NoMemory),
    };
    let patterns = one(alloc, pattern)?;
    let collections = one(alloc, Collection { patterns, methods })?;
    let manager = Text::copy_of(alloc, "manager")?;
    Ok(Constraint {
        number,
        collections,
        auth: Auth::Roles(one(alloc, manager)?),
        transport: Transport::Absent,
    })
}

/// Returns a list of one item.
fn one<T: Drop>(alloc: Global, item: T) -> Result<Listed<T>, NoMemory>
    ensures { GivesAnswer result (item ∷ []) }
{
    let mut items = Vec::new(alloc);
    items.push(item)?;
    Ok(Listed::from_vec(items))
}
