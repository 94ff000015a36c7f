//! The deployments of a server, read from a store in memory.

use crate::stores::Store;
use std::alloc::Global;
use sv_deployments::{Configuration, read_deployments};
use sv_program::CommandFault;
use sv_rows::{Asks, Draft, Strays, cell, hold};
use sv_text::NoMemory;

/// Answers with the line of the fault, or with the deployments: the port, and for each context its path and its numbers
/// of files and servlets. If the row has a fourth cell, the requested names follow.
struct Deployed;

impl Asks for Deployed {
    const QUESTION: usize = 2;

    fn answer(&self, alloc: Global, row: &str, answer: &mut Vec<u8>) -> Result<(), NoMemory> {
        let mut store = Store {
            missing: cell(row, 0),
            files: cell(row, 1),
            asked: String::new(alloc),
        };
        let mut draft = Draft::new(alloc);
        show(
            read_deployments(alloc, &mut store, "in/server.toml"),
            &mut draft,
        );
        if !cell(row, 3).is_empty() {
            draft.add(" | ");
            draft.add(store.asked.as_str().trim_end());
        }
        draft.add_to(answer)
    }
}

/// A value that can be shown.
trait Tells {
    /// Adds the value.
    fn tell(&self, draft: &mut Draft);
}

/// Adds a value or its fault, and drops it. The function is generic, so that its callers need no proof about dropping a
/// configuration.
fn show<T: Tells + Drop>(value: Result<T, CommandFault>, draft: &mut Draft) {
    match value {
        Ok(value) => value.tell(draft),
        Err(fault) => draft.add_shown(&fault),
    }
}

impl Tells for Configuration {
    fn tell(&self, draft: &mut Draft) {
        draft.add_shown(&self.port);
        for deployment in self.deployments.as_slice() {
            draft.add(" ");
            draft.add(deployment.path.as_str());
            draft.add(":");
            draft.add_shown(&deployment.files.list().len());
            draft.add(":");
            draft.add_shown(&deployment.parts.servlets.len());
        }
    }
}

/// The columns: missing file; static files of the first context; deployments or fault; requested names.
const DEPLOYED: &str = r#"
-              | /a.txt /b/c.txt | 7 :2:1 /two:0:1
-- names are taken from the folder of the server file, each is asked for once, and an empty name of a folder is not asked for
-              | /a.txt          | 7 :1:1 /two:0:1 | in/server.toml in/root.toml in/users.toml in/two.toml in/files
in/server.toml | /a.txt          | sv: file in/server.toml | in/server.toml
-- static files: one that no target can name, two of one path
-              | /a//b           | sv: files / 1
-              | /a.txt /a.txt   | sv: files / 2
"#;

#[test]
fn a_server_deploys_its_contexts_or_reports_its_first_fault(rt: HostRuntime) -> Result<(), Strays> {
    hold(&rt, &[DEPLOYED], &Deployed)
}
