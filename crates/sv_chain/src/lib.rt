//! The filters that a dispatch passes, and their order (Jakarta Servlet 6.0, section 6.2).
#![tactic(auto)]

mod by_path;
mod chain;
mod chain_cache;
mod chains;
mod compiled_chains;
pub mod laws;
mod mapping;
mod shared_chain;

pub use chain::chain_plain;
pub use chain_cache::{MAX_CACHED_CHAINS, MAX_CACHED_KEY_BYTES};
pub use chains::Chains;
pub use shared_chain::Chain;
