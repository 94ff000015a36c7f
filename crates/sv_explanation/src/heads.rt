//! Heads that are too long for their limit.

ghost use Rattle.std.specs.Prelude.{◌≡◌};
ghost use Rattle.sv_explanation.specs.Heads as spec;

use sv_wire::MAX_HEAD_LEN;

/// Returns whether no head with this method and this target ends within its limit.
pub fn is_too_long(method: &str, target: &str) -> bool
    ensures { result ≡ spec.is_too_long method.now target.now }
{
    let rest = 12;
    method.len() > MAX_HEAD_LEN - rest || target.len() > MAX_HEAD_LEN - rest - method.len()
}
