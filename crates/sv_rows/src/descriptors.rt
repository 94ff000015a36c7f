//! Descriptors that tables of several crates use.

/// The root context of the demonstration.
pub const DEMO: &str = r#"
[[servlet]]
servlet-name = "who"
servlet-class = "Who"
[[servlet]]
servlet-name = "nest"
servlet-class = "Nest"
init-param = { path = "/nest" }
[[servlet]]
servlet-name = "go"
servlet-class = "Go"
init-param = { path = "/WEB-INF/page.html" }
[[servlet]]
servlet-name = "keep"
servlet-class = "Keep"
[[servlet-mapping]]
servlet-name = "who"
url-pattern = ["/who"]
[[servlet-mapping]]
servlet-name = "nest"
url-pattern = ["/nest"]
[[servlet-mapping]]
servlet-name = "go"
url-pattern = ["/go"]
[[servlet-mapping]]
servlet-name = "keep"
url-pattern = ["/keep"]
[[filter]]
filter-name = "mark"
filter-class = "Mark"
[[filter-mapping]]
filter-name = "mark"
url-pattern = ["/*"]
dispatcher = ["FORWARD"]
[[listener]]
listener-class = "Log"
[[listener]]
listener-class = "Log"
[session-config]
session-timeout = 1
[[security-constraint]]
web-resource-collection = [{ url-pattern = ["/admin/*"] }]
auth-constraint = { role-name = ["a"] }
[[security-role]]
role-name = "a"
[login-config]
auth-method = "FORM"
form-login-config = { form-login-page = "/login.html", form-error-page = "/error.html" }
"#;

/// The second context of the demonstration, with the path `/two`.
pub const TWO: &str = r#"
[[servlet]]
servlet-name = "keep"
servlet-class = "Keep"
[[servlet-mapping]]
servlet-name = "keep"
url-pattern = ["/keep"]
[session-config]
session-timeout = 0
"#;

/// A context whose second filter fails to start.
pub const BAD: &str = r#"
[[filter]]
filter-name = "f1"
filter-class = "Mark"
[[filter]]
filter-name = "f2"
filter-class = "Bad"
[[listener]]
listener-class = "Log"
[[listener]]
listener-class = "Log"
"#;
