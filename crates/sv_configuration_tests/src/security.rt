//! The access rules of a descriptor as text.

use crate::elements::{add_patterns, add_texts};
use crate::summary::begin;
use sv_constraints::{Auth, Collection, Constraint, Methods, Transport};
use sv_descriptor::WebApp;
use sv_rows::Draft;

/// Adds a security constraint.
pub fn add_constraint(draft: &mut Draft, constraint: &Constraint) {
    begin(draft, "constraint ");
    draft.add_shown(&constraint.number);
    for collection in constraint.collections.as_slice() {
        add_collection(draft, collection);
    }
    match &constraint.auth {
        Auth::Absent => draft.add(" open"),
        Auth::Roles(roles) => {
            draft.add(" roles");
            add_texts(draft, roles);
        }
    }
    draft.add(" over ");
    draft.add(transport_name(constraint.transport));
}

fn transport_name(transport: Transport) -> &'static str {
    match transport {
        Transport::Absent => "Absent",
        Transport::Plain => "Plain",
        Transport::Integral => "Integral",
        Transport::Confidential => "Confidential",
    }
}

fn add_collection(draft: &mut Draft, collection: &Collection) {
    draft.add(" on");
    add_patterns(draft, &collection.patterns);
    match &collection.methods {
        Methods::All => {}
        Methods::Only(methods) => {
            draft.add(" only");
            add_texts(draft, methods);
        }
        Methods::Except(methods) => {
            draft.add(" except");
            add_texts(draft, methods);
        }
    }
}

/// Adds the declared roles and the login of a descriptor.
pub fn add_rules(draft: &mut Draft, app: &WebApp) {
    for role in app.rules.declared.as_slice() {
        begin(draft, "role ");
        draft.add(role.as_str());
    }
    if let Some(login) = &app.login {
        begin(draft, "login ");
        draft.add(login.login_page.text());
        draft.add(" ");
        draft.add(login.error_page.text());
    }
}
