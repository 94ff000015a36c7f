//! The interfaces of components, and the model of their calls.
#![tactic(auto)]

mod answers;
mod boxes;
mod components;
mod config;
mod laws;
mod results;
mod standing;

pub use answers::{Gate, Init, Step};
pub use components::{Filter, Listener, Named, Servlet};
pub use config::{Config, Param};
pub use laws::{runs_are_journalled, runs_are_whole, runs_join, runs_move_components};
pub use results::{gate_answer, init_answer, step_answer};
pub use standing::Standing;
pub use sv_exchange::{Exchange, ExchangeFault};
pub use sv_session::Event;
