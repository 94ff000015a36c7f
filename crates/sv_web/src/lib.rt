//! The items for authors of web applications: responses that combine calls of an exchange, and the deployment of an
//! application from its files.
#![tactic(auto)]

mod cookies;
mod deployment;
mod deployments;
mod elements;
mod escape;
mod fault;
mod links;
mod methods;
mod redirects;
mod request_cookies;
mod whole_response;

pub use cookies::{NewCookie, SameSite, set_cookie};
pub use deployment::{Content, Deployment};
pub use deployments::deployments_of;
pub use escape::escape_html;
pub use fault::{Fault, gate_of, step_of};
pub use links::link_to;
pub use methods::{Verb, asked_verb};
pub use redirects::{RedirectKind, redirect, redirect_elsewhere};
pub use request_cookies::cookie;
pub use sv_application::{Application, hand_over};
pub use sv_component::{
    Config, Event, Exchange, ExchangeFault, Filter, Gate, Init, Listener, Named, Param, Servlet,
    Step,
};
pub use sv_mapping::Kind;
pub use sv_message::Field;
pub use sv_realm::Caller;
pub use sv_session::Attribute;
pub use sv_text::{NoMemory, Text};
pub use whole_response::{send, send_html, send_text};
