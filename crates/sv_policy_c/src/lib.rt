//! The policy engine as a static library for C. A descriptor is read once, and then decides requests (Jakarta Servlet
//! 6.0, section 13.8). `policy.h` documents the calls from C.
#![tactic(auto)]

mod effects;
mod engine;
mod exports;
mod gaps;
mod handle;
mod loose;
mod status;

pub use engine::Engine;
pub use exports::{
    sv_policy_caller, sv_policy_close, sv_policy_decide, sv_policy_open, sv_policy_role,
    sv_policy_uncovered,
};
pub use gaps::uncovered;
pub use handle::PolicyHandle;
pub use status::Status;
