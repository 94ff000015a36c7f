//! The descriptors and the files of a row's contexts.

use sv_rows::{BAD, DEMO, TWO};

/// Returns the descriptor of this name. For an unknown name, this is the descriptor of a context without components.
pub fn descriptor_text(name: &str) -> &'static str {
    match name {
        "demo" => DEMO,
        "two" => TWO,
        "bad" => BAD,
        "who" => WHO,
        "edited" => EDITED,
        _ => "",
    }
}

/// Returns the files of the context of this name: each line is a path and the text of that file.
pub fn file_lines(name: &str) -> &'static str {
    match name {
        "demo" => DEMO_FILES,
        _ => "",
    }
}

const DEMO_FILES: &str = "/WEB-INF/page.html page
/admin/x.txt secret
/error.html no
/login.html login";

/// A context with one servlet and one listener.
const WHO: &str = r#"
[[servlet]]
servlet-name = "who"
servlet-class = "Who"
[[servlet-mapping]]
servlet-name = "who"
url-pattern = ["/who"]
[[listener]]
listener-class = "Log"
"#;

/// A context without components and with one constraint.
const EDITED: &str = r#"
[[security-constraint]]
web-resource-collection = [{ url-pattern = ["/admin/*"] }]
auth-constraint = { role-name = ["a"] }
"#;
