//! Everything that the author of a web application uses: components, exchanges, responses, deployments and the run of
//! an application.
#![tactic(auto)]

mod application;
mod options;

pub use application::{exit_code, run_application};
pub use options::Options;
pub use sv_program::{CommandFault, Detail, FileFault, SocketFault, Unavailable, UnavailableEntry};
pub use sv_web::{
    Application, Attribute, Caller, Config, Deployment, Event, Exchange, ExchangeFault, Fault,
    Field, Filter, Gate, Init, Kind, Listener, Named, NewCookie, NoMemory, Param, RedirectKind,
    SameSite, Servlet, Step, Text, Verb, asked_verb, cookie, escape_html, gate_of, hand_over,
    link_to, redirect, redirect_elsewhere, send, send_html, send_text, set_cookie, step_of,
};
