//! Configuration read from TOML: the deployment descriptor, the server file and the users file. The result is plain
//! data that is well-formed, or the first fault in the order of the format (Jakarta Servlet 6.0, section 14.4).
#![tactic(auto)]

mod agreement;
mod collection;
mod components;
mod constraint;
mod context_path;
mod cookie_config;
mod descriptor;
mod document;
mod error_page;
mod fault;
mod filter;
mod ignored_keys;
mod init_param;
mod laws;
mod limits;
mod list;
mod listener;
mod location;
mod login;
mod names;
mod pages;
mod pattern;
mod role;
mod schema;
mod security;
mod server;
mod servlet;
mod session;
mod table;
mod tables;
mod text;
mod users;
mod version;
mod web_app;
mod welcome_file;
mod whole;

pub use descriptor::{Descriptor, read_descriptor, read_located_descriptor};
pub use document::read_document;
pub use error_page::{ErrorPage, PageFor};
pub use fault::{
    DescriptorFault, FaultCode, LocatedFault, LocatedReadFault, ReadFault, ValueStep, refuse,
};
pub use filter::{FilterEntry, FilterMapping};
pub use init_param::InitParam;
pub use laws::{limits_of_all_formats, limits_of_the_descriptor, limits_of_the_settings};
pub use limits::{
    DEFAULT_SESSION_TIMEOUT, DIGEST_BYTES, MAX_COOKIE_AGE, MAX_COOKIE_PATH_BYTES, MAX_ERROR_CODE,
    MAX_LIST_ITEMS, MAX_NAME_BYTES, MAX_PORT, MAX_SALT_DIGITS, MAX_SESSION_TIMEOUT,
    MAX_SESSIONS_OF_VERSION_1, MAX_SESSIONS_OF_VERSION_2, MIN_ERROR_CODE, NO_LIMIT, SEED_BYTES,
};
pub use list::{ListOf, list_items};
pub use listener::ListenerEntry;
pub use location::Location;
pub use login::FormLogin;
pub use names::{Named, Names, distinct_names, repeats};
pub use schema::{Schema, has_key, list_or_empty, optional, optional_or, required};
pub use server::{ContextEntry, Server, read_located_server, read_server};
pub use servlet::{ServletEntry, ServletMapping};
pub use session::SessionConfig;
pub use sv_mapping::Kind;
pub use table::{TableOf, TableSchema, only_keys};
pub use text::{AnyText, HexText, Name, TextOf, TextSchema, is_within};
pub use users::{read_located_users, read_users};
pub use version::Version;
pub use web_app::WebApp;
pub use whole::{NumberBetween, Truth, WholeOf, WholeSchema};
