//! The components of a guestbook with logins and roles, and the context that deploys them. The entries are in a SQLite
//! file.
#![tactic(auto)]

mod book;
mod files;
mod guestbook;
mod pages;
mod paragraph;
mod shield;
mod site;
mod token;
mod visits;

pub use book::{Book, BookFault};
pub use guestbook::Guestbook;
pub use shield::Shield;
pub use site::site_of;
pub use visits::Visits;
