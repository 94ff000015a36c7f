//! The access rules of the site, its users, and its deployment.

use crate::book::Book;
use crate::files::{LOGIN, LOGIN_FAILED, STYLE};
use crate::guestbook::Guestbook;
use crate::shield::Shield;
use crate::visits::Visits;
use sqlite::Alter;
use std::alloc::Global;
use sv_web::{Deployment, NoMemory};

/// The access rules, the login, and the mapping that adds the filter's fields to the login pages (Jakarta Servlet 6.0,
/// sections 6.2.5, 13.4 and 13.6.3), as elements of a `web.xml` in TOML.
const DESCRIPTOR: &str = r#"
version = 2

[session-config]
session-timeout = 30

[[filter-mapping]]
filter-name = "shield"
url-pattern = ["/*"]
dispatcher = ["FORWARD"]

[[security-constraint]]
web-resource-collection = [{ url-pattern = ["/write", "/leave"] }]
auth-constraint = { role-name = ["member"] }

[[security-constraint]]
web-resource-collection = [{ url-pattern = ["/remove"] }]
auth-constraint = { role-name = ["administrator"] }

[[security-role]]
role-name = "member"

[[security-role]]
role-name = "administrator"

[login-config]
auth-method = "FORM"
form-login-config = { form-login-page = "/login.html", form-error-page = "/login-failed.html" }
"#;

/// The users of the example. The passwords of ann, ben and eve are `violet`, `harbor` and `lantern`. `tools/new-user`
/// creates an entry.
const USERS: &str = r#"
[[user]]
name = "ann"
salt = "48ba2ada87e2708b4838c28924ca0c0c"
digest = "c7635b1fe3fac18b2dead17125cd4795eb5aac3c1aa67eb0f080c5b2c257628e"
roles = ["member"]

[[user]]
name = "ben"
salt = "07106ad032dcab52f2f4f7608c87857b"
digest = "82713d0aeac56b9d9ac5af7eec4ce82687181c4db6f8d0b6669c5664580a5a0e"
roles = ["member"]

[[user]]
name = "eve"
salt = "27ef721078f1c2c58339cfccd7910e55"
digest = "46a6ec95492c6f50c913985ede0e4a7a3c2e4def7a9b509f29a2f24d8d6b5009"
roles = ["member", "administrator"]
"#;

/// Returns the site with this book: one context, which is the root.
///
/// # Errors
/// [`NoMemory`]: out of memory.
pub fn site_of<S: Alter + Drop>(
    alloc: Global,
    book: Book<S>,
) -> Result<Vec<Deployment<Guestbook<S>, Shield, Visits>>, NoMemory> {
    let visits = Visits::new(alloc)?;
    let guestbook = Guestbook {
        book,
        visits: visits.shared()?,
    };
    deployed(alloc, guestbook, Shield {}, visits)
}

// Deploys these components. It is generic, so that the prover sees each call of it without their types.
fn deployed<S: Drop, F: Drop, L: Drop>(
    alloc: Global,
    servlet: S,
    filter: F,
    listener: L,
) -> Result<Vec<Deployment<S, F, L>>, NoMemory> {
    let deployment = Deployment::at(alloc, "/")?
        .describe(DESCRIPTOR)?
        .servlet("guestbook", &["", "/write", "/remove", "/leave"], servlet)?
        .filter("shield", &["/*"], filter)?
        .listener(listener)?;
    with_files(deployment)
}

// Adds the files and the users to the site.
fn with_files<S: Drop, F: Drop, L: Drop>(
    deployment: Deployment<S, F, L>,
) -> Result<Vec<Deployment<S, F, L>>, NoMemory> {
    deployment
        .file("/login.html", LOGIN.as_bytes())?
        .file("/login-failed.html", LOGIN_FAILED.as_bytes())?
        .file("/style.css", STYLE.as_bytes())?
        .users(USERS)?
        .alone()
}
