//! The functions that C calls.

ghost use Rattle.std.specs.Prelude.{◌≡◌, None, option_map};
ghost use Rattle.sv_policy_c.specs.Deciding as spec;
ghost use Rattle.sv_policy_c.specs.Engine.{engine_of, explained};
ghost use Rattle.sv_policy_c.specs.Uncovered.{uncovered_in, Lists};

use crate::effects::{add_role, decide, list_uncovered, open, set_caller};
use crate::handle::PolicyHandle;
use crate::status::Status;
use std::alloc::Global;

/// Reads a deployment descriptor, and holds the policy of a context with this path and these constraints, without a
/// caller.
///
/// The path is empty for the root context, or begins with `/` and does not end with it. A policy held before is freed.
/// If the descriptor has a fault, the handle keeps its policy, and the answer is the fault's name and key.
#[unsafe(no_mangle)]
pub extern "C" fn sv_policy_open(
    alloc: Global,
    policy: &mut PolicyHandle,
    path: &[u8],
    descriptor: &[u8],
    answer: &mut [u8],
    length: &mut usize,
) -> u32
    ensures opened { spec.Returns result (spec.Opens (engine_of path.now descriptor.now) policy.old.value policy.new.value answer.old answer.new length.new) }
    ensures text { spec.Returns result (spec.CallsNoTexts path.now descriptor.now) }
    ensures room { spec.Returns result (spec.WritesForFault answer.old answer.new length.old length.new) }
{
    match open(alloc, path, descriptor, answer, length) {
        Ok(engine) => {
            let old = policy.take(alloc);
            policy.hold(engine);
            drop(old);
            Status::Written.number()
        }
        Err(status) => status.number(),
    }
}

/// Frees the policy that the handle holds.
#[unsafe(no_mangle)]
pub extern "C" fn sv_policy_close(alloc: Global, policy: &mut PolicyHandle)
    ensures { policy.new.value ≡ None }
{
    drop(policy.take(alloc));
}

/// Sets the caller of further requests: one that has no roles, or none.
#[unsafe(no_mangle)]
pub extern "C" fn sv_policy_caller(alloc: Global, policy: &mut PolicyHandle, is_known: bool) -> u32
    ensures caller { policy.new.value ≡ option_map (spec.with_caller is_known) policy.old.value }
    ensures told { spec.Returns result (spec.IfHeld (λ _ told. told ≡ Status.Written) policy.old.value) }
{
    let Some(mut engine) = policy.take(alloc) else {
        return Status::Nothing.number();
    };
    set_caller(alloc, &mut engine, is_known);
    policy.hold(engine);
    Status::Written.number()
}

/// Adds a role to the caller.
#[unsafe(no_mangle)]
pub extern "C" fn sv_policy_role(alloc: Global, policy: &mut PolicyHandle, role: &[u8]) -> u32
    ensures { spec.Returns result (spec.Gives role.now policy.old.value policy.new.value) }
{
    let Some(mut engine) = policy.take(alloc) else {
        return Status::Nothing.number();
    };
    let status = add_role(alloc, &mut engine, role);
    policy.hold(engine);
    status.number()
}

/// Writes the decision on a request of the caller with this method and this target: the line that `sv policy` prints.
#[unsafe(no_mangle)]
pub extern "C" fn sv_policy_decide(
    alloc: Global,
    policy: &mut PolicyHandle,
    method: &[u8],
    target: &[u8],
    answer: &mut [u8],
    length: &mut usize,
) -> u32
    ensures kept { policy.new.value ≡ policy.old.value }
    ensures decided { spec.Returns result (spec.IfHeld
        (λ engine. spec.WritesAnswer (explained engine method.now target.now) answer.old answer.new length.new) policy.old.value) }
    ensures text { spec.Returns result (spec.CallsNoText method.now) }
    ensures room { spec.Returns result (spec.WritesForAnswer answer.old answer.new length.old length.new) }
{
    let Some(engine) = policy.take(alloc) else {
        return Status::Nothing.number();
    };
    let status = decide(alloc, &engine, method, target, answer, length);
    policy.hold(engine);
    status.number()
}

/// Writes the methods that a deployment descriptor leaves uncovered in a context with this path, as `sv uncovered` does.
/// If the descriptor has a fault, the answer is the fault's name and key.
#[unsafe(no_mangle)]
pub extern "C" fn sv_policy_uncovered(
    alloc: Global,
    path: &[u8],
    descriptor: &[u8],
    answer: &mut [u8],
    length: &mut usize,
) -> u32
    ensures said { spec.Returns result (Lists (uncovered_in path.now descriptor.now) answer.old answer.new length.new) }
    ensures text { spec.Returns result (spec.CallsNoTexts path.now descriptor.now) }
    ensures room { spec.Returns result (spec.WritesForAnswer answer.old answer.new length.old length.new) }
{
    list_uncovered(alloc, path, descriptor, answer, length).number()
}
