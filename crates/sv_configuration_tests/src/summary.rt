//! The content of a configuration file: its elements, separated by ` ; `.

use crate::elements::add_web_app;
use crate::settings::{add_server, add_user};
use std::alloc::Global;
use sv_descriptor::{DescriptorFault, ReadFault, read_descriptor, read_server, read_users};
use sv_rows::Draft;

/// Adds the elements of a descriptor, or its fault.
pub fn add_descriptor(draft: &mut Draft, alloc: Global, text: &str) {
    match read_descriptor(alloc, text) {
        Ok(descriptor) => add_web_app(draft, descriptor.web_app()),
        Err(fault) => add_fault(draft, &fault),
    }
}

/// Adds the elements of a server file, or its fault.
pub fn add_server_file(draft: &mut Draft, alloc: Global, text: &str) {
    match read_server(alloc, text) {
        Ok(server) => add_server(draft, &server),
        Err(fault) => add_fault(draft, &fault),
    }
}

/// Adds the users of a users file, or its fault.
pub fn add_users_file(draft: &mut Draft, alloc: Global, text: &str) {
    match read_users(alloc, text) {
        Ok(users) => {
            for user in users.as_slice() {
                add_user(draft, user);
            }
        }
        Err(fault) => add_fault(draft, &fault),
    }
}

fn add_fault(draft: &mut Draft, fault: &ReadFault) {
    match fault {
        ReadFault::Fault(fault) => add_numbered(draft, fault),
        ReadFault::NoMemory => draft.fail(),
    }
}

fn add_numbered(draft: &mut Draft, fault: &DescriptorFault) {
    draft.add("fault ");
    draft.add_shown(&fault.code.number());
    draft.add(" ");
    draft.add_shown(&fault.code);
    draft.add(" \"");
    draft.add(fault.key.as_str());
    draft.add("\"");
}

/// Adds the first word of an element, after ` ; ` if another element precedes it.
pub fn begin(draft: &mut Draft, word: &str) {
    if !draft.is_empty() {
        draft.add(" ; ");
    }
    draft.add(word);
}
