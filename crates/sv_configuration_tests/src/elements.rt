//! The elements of a descriptor as text.

use crate::security::{add_constraint, add_rules};
use crate::summary::begin;
use sv_descriptor::{
    ErrorPage, FilterEntry, FilterMapping, InitParam, PageFor, ServletEntry, ServletMapping,
    Version, WebApp,
};
use sv_mapping::{Kind, Pattern};
use sv_rows::Draft;
use sv_text::{Listed, Text};

/// Adds the elements of a descriptor.
pub fn add_web_app(draft: &mut Draft, app: &WebApp) {
    if app.rules.deny_uncovered {
        begin(draft, "deny uncovered");
    }
    add_servlets(draft, app);
    add_filters(draft, app);
    for listener in app.listeners.as_slice() {
        begin(draft, "listener ");
        draft.add(listener.listener_class.as_str());
    }
    begin(draft, "timeout ");
    draft.add_shown(&app.session.timeout);
    if app.version == Version::Two {
        add_sessions(draft, app);
    }
    add_pages(draft, app);
    for constraint in app.constraints.as_slice() {
        add_constraint(draft, constraint);
    }
    add_rules(draft, app);
}

/// Adds the session settings of a descriptor of version 2, except the timeout.
fn add_sessions(draft: &mut Draft, app: &WebApp) {
    begin(draft, "sessions ");
    draft.add_shown(&app.version.max_sessions());
    let cookie = &app.session.cookie;
    begin(draft, "cookie ");
    draft.add(cookie.name.as_str());
    if let Some(path) = &cookie.path {
        draft.add(" at ");
        draft.add(path.as_str());
    }
    if let Some(seconds) = cookie.max_age {
        draft.add(" for ");
        draft.add_shown(&seconds);
    }
    draft.add(if cookie.http_only { " HttpOnly" } else { "" });
}

fn add_servlets(draft: &mut Draft, app: &WebApp) {
    for servlet in app.servlets.as_slice() {
        add_servlet(draft, servlet);
    }
    for mapping in app.servlet_mappings.as_slice() {
        add_servlet_mapping(draft, mapping);
    }
}

fn add_filters(draft: &mut Draft, app: &WebApp) {
    for filter in app.filters.as_slice() {
        add_filter(draft, filter);
    }
    for mapping in app.filter_mappings.as_slice() {
        add_filter_mapping(draft, mapping);
    }
}

fn add_pages(draft: &mut Draft, app: &WebApp) {
    for file in app.welcome_files.as_slice() {
        begin(draft, "welcome ");
        draft.add(file.as_str());
    }
    for page in app.error_pages.as_slice() {
        add_error_page(draft, page);
    }
}

fn add_servlet(draft: &mut Draft, servlet: &ServletEntry) {
    begin(draft, "servlet ");
    draft.add(servlet.servlet_name.as_str());
    draft.add(" ");
    draft.add(servlet.servlet_class.as_str());
    if let Some(order) = &servlet.load_on_startup {
        draft.add(" load ");
        draft.add_shown(order);
    }
    add_params(draft, &servlet.init_params);
}

fn add_servlet_mapping(draft: &mut Draft, mapping: &ServletMapping) {
    begin(draft, "map ");
    draft.add(mapping.servlet_name.as_str());
    draft.add(" to");
    add_patterns(draft, &mapping.url_patterns);
}

fn add_filter(draft: &mut Draft, filter: &FilterEntry) {
    begin(draft, "filter ");
    draft.add(filter.filter_name.as_str());
    draft.add(" ");
    draft.add(filter.filter_class.as_str());
    add_params(draft, &filter.init_params);
}

fn add_params(draft: &mut Draft, params: &Listed<InitParam>) {
    for param in params.as_slice() {
        draft.add(" ");
        draft.add(param.name.as_str());
        draft.add("=");
        draft.add(param.value.as_str());
    }
}

fn add_filter_mapping(draft: &mut Draft, mapping: &FilterMapping) {
    begin(draft, "filter ");
    draft.add(mapping.filter_name.as_str());
    draft.add(" on");
    add_patterns(draft, &mapping.url_patterns);
    draft.add(" servlets");
    add_texts(draft, &mapping.servlet_names);
    draft.add(" for");
    add_kinds(draft, mapping.dispatchers.as_slice());
}

fn add_kinds(draft: &mut Draft, kinds: &[Kind]) {
    for kind in kinds {
        draft.add(" ");
        draft.add_shown(kind);
    }
}

fn add_error_page(draft: &mut Draft, page: &ErrorPage) {
    begin(draft, "page ");
    match &page.page_for {
        PageFor::Status(status) => draft.add_shown(status),
        PageFor::Exception(kind) => draft.add(kind.as_str()),
        PageFor::Any => draft.add("for any"),
    }
    draft.add(" at ");
    draft.add(page.location.text());
}

/// Adds patterns in quotes, each after a blank.
pub fn add_patterns(draft: &mut Draft, patterns: &Listed<Pattern>) {
    for pattern in patterns.as_slice() {
        draft.add(" \"");
        draft.add(pattern.text());
        draft.add("\"");
    }
}

/// Adds texts, each after a blank.
pub fn add_texts(draft: &mut Draft, texts: &Listed<Text>) {
    for text in texts.as_slice() {
        draft.add(" ");
        draft.add(text.as_str());
    }
}
