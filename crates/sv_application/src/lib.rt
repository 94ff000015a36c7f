//! A servlet that hands requests over to an application behind a proxy, after the container has let them enter.
#![tactic(auto)]

mod application;
mod cookies;
mod handing_over;
mod names;

pub use application::Application;
pub use handing_over::hand_over;
