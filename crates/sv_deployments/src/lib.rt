//! The deployments of a server, read from its configuration files and the folders of its static files, and the component
//! classes of the program.
#![tactic(auto)]

mod bad;
mod bye;
mod check;
mod class_fault;
mod component_place;
mod configuration;
mod declaration;
mod deployments;
mod disk_folders;
mod error;
mod fail;
mod files;
mod folders;
mod go;
mod gone;
mod halt;
mod keep;
mod log;
mod mark;
mod nest;
mod out;
mod parameter;
mod parts;
mod paths;
mod plain;
mod program_filter;
mod program_listener;
mod program_servlet;
mod stream;
mod who;

pub use bad::Bad;
pub use bye::Bye;
pub use check::{
    CheckedContext, CheckedServer, ContextCounts, check_contexts, checks_find_what_a_start_finds,
    read_checked,
};
pub use class_fault::{CLASSES, ClassFault};
pub use component_place::ComponentPlace;
pub use configuration::{Configuration, read_deployments};
pub use deployments::{ProgramDeployment, both};
pub use error::ErrorCode;
pub use fail::Fail;
pub use files::files_of;
pub use folders::{FolderFiles, FolderStore, FoundContext, read_folders};
pub use go::Go;
pub use gone::Gone;
pub use halt::Halt;
pub use keep::Keep;
pub use log::Log;
pub use mark::Mark;
pub use nest::Nest;
pub use out::Out;
pub use parts::parts_of;
pub use paths::Paths;
pub use program_filter::ProgramFilter;
pub use program_listener::ProgramListener;
pub use program_servlet::ProgramServlet;
pub use stream::Stream;
pub use who::Who;
