//! The choice of the page for an error (Jakarta Servlet 6.0, section 10.9.2).
#![tactic(auto)]

mod choice;

pub use choice::page_for;
