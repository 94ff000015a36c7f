//! The keys of the configuration files.

/// A format of configuration files.
#[derive(Clone, Copy, PartialEq, Eq)]
pub enum Format {
    /// The server file.
    Server,
    /// The deployment descriptor.
    Descriptor,
    /// The users file.
    Users,
}

/// What a key of a configuration file takes and means.
#[derive(Clone, Copy)]
pub struct KeyDescription {
    /// The format of the file.
    pub format: Format,
    /// The key of the table that has this key; empty for the table of the file itself.
    pub table: &'static str,
    /// The key.
    pub key: &'static str,
    /// The values that it takes, as a noun phrase.
    pub takes: &'static str,
    /// What it does, and what holds without it.
    pub means: &'static str,
}

/// The fields of a [`KeyDescription`], in order. Contracts can name a constant of this type.
pub type KeyRow = (
    Format,
    &'static str,
    &'static str,
    &'static str,
    &'static str,
);

impl KeyDescription {
    ghost use Rattle.std.specs.Prelude.{◌≡◌};
    ghost use Rattle.sv_program.specs.Keys.{fields, row_fields};

    /// Returns the description with these fields.
    pub fn of(row: &KeyRow) -> KeyDescription
        ensures { fields result ≡ row_fields (λ text. text.now) row.now }
    {
        let (format, table, key, takes, means) = *row;
        KeyDescription {
            format,
            table,
            key,
            takes,
            means,
        }
    }
}

/// The keys of all formats, in the order in which they are checked. Each table of a descriptor except `init-param` may
/// also have the keys `description` and `display-name`, which are ignored.
pub const KEYS: [KeyRow; 63] = [
    (
        Format::Server,
        "",
        "port",
        "a number from 0 to 65535",
        "Sets the port of 127.0.0.1 at which the server listens, 0 for any free port; required.",
    ),
    (
        Format::Server,
        "",
        "seed",
        "64 hexadecimal digits",
        "Is the seed from which session ids are derived; required.",
    ),
    (
        Format::Server,
        "",
        "context",
        "a list of tables",
        "Lists the contexts of the server, at most 64; required.",
    ),
    (
        Format::Server,
        "context",
        "path",
        "an empty text or a canonical path without `/` at its end",
        "Sets the path of the context, empty for the root context; required, and different for each context.",
    ),
    (
        Format::Server,
        "context",
        "descriptor",
        "a text",
        "Names the file of the deployment descriptor, relative to the folder of the server file; required.",
    ),
    (
        Format::Server,
        "context",
        "files",
        "a text",
        "Names the folder of the static files, relative to the folder of the server file, or is empty if there are none; required.",
    ),
    (
        Format::Server,
        "context",
        "users",
        "a text",
        "Names the users file, relative to the folder of the server file; without it, the context has no users.",
    ),
    (
        Format::Descriptor,
        "",
        "version",
        "the number 1 or 2",
        "Sets the version of the format; without it, the version is 1, in which a context holds 1,000 sessions instead of 100,000, and `cookie-config` is unknown.",
    ),
    (
        Format::Descriptor,
        "",
        "deny-uncovered-http-methods",
        "true or false",
        "Says whether methods that the constraints leave uncovered are denied; without it, they are admitted.",
    ),
    (
        Format::Descriptor,
        "",
        "servlet",
        "a list of at most 1,000 tables",
        "Declares the servlets; without it, there are none.",
    ),
    (
        Format::Descriptor,
        "",
        "servlet-mapping",
        "a list of at most 1,000 tables",
        "Maps URL patterns to servlets; without it, no request reaches a servlet.",
    ),
    (
        Format::Descriptor,
        "",
        "filter",
        "a list of at most 1,000 tables",
        "Declares the filters; without it, there are none.",
    ),
    (
        Format::Descriptor,
        "",
        "filter-mapping",
        "a list of at most 1,000 tables",
        "Maps URL patterns and servlets to filters; without it, no filter runs.",
    ),
    (
        Format::Descriptor,
        "",
        "listener",
        "a list of at most 1,000 tables",
        "Declares the listeners; without it, there are none.",
    ),
    (
        Format::Descriptor,
        "",
        "session-config",
        "a table",
        "Configures the sessions; without it, its keys have their defaults.",
    ),
    (
        Format::Descriptor,
        "",
        "welcome-file-list",
        "a table",
        "Lists the welcome files; without it, there are none.",
    ),
    (
        Format::Descriptor,
        "",
        "error-page",
        "a list of at most 1,000 tables",
        "Declares the error pages; without it, errors have plain texts.",
    ),
    (
        Format::Descriptor,
        "",
        "security-constraint",
        "a list of at most 1,000 tables",
        "Lists the security constraints, which are numbered from 1; without it, everyone may enter everywhere.",
    ),
    (
        Format::Descriptor,
        "",
        "security-role",
        "a list of at most 1,000 tables",
        "Declares the roles that `*` means in a constraint; without it, there are none.",
    ),
    (
        Format::Descriptor,
        "",
        "login-config",
        "a table",
        "Configures the login; without it, nobody can log in.",
    ),
    (
        Format::Descriptor,
        "servlet",
        "servlet-name",
        "a name of 1 to 64 bytes other than `default` and `*`",
        "Names the servlet; required, and different for each servlet.",
    ),
    (
        Format::Descriptor,
        "servlet",
        "servlet-class",
        "a name of 1 to 64 bytes",
        "Names the class of the servlet, which the program must have; required.",
    ),
    (
        Format::Descriptor,
        "servlet",
        "load-on-startup",
        "a number from -2147483648 to 2147483647",
        "Sets the place of the servlet in the order of initialization, in which lesser numbers come first; without it, or below 0, the servlet comes after those that have one.",
    ),
    (
        Format::Descriptor,
        "servlet",
        "init-param",
        "a table of texts",
        "Sets the parameters of the servlet; without it, there are none.",
    ),
    (
        Format::Descriptor,
        "servlet-mapping",
        "servlet-name",
        "a name of 1 to 64 bytes",
        "Names the servlet that the patterns are for, which must be declared; required.",
    ),
    (
        Format::Descriptor,
        "servlet-mapping",
        "url-pattern",
        "a list of 1 to 1,000 URL patterns",
        "Lists the patterns of the requests that the servlet answers; required, and each may be mapped only once.",
    ),
    (
        Format::Descriptor,
        "filter",
        "filter-name",
        "a name of 1 to 64 bytes",
        "Names the filter; required, and different for each filter.",
    ),
    (
        Format::Descriptor,
        "filter",
        "filter-class",
        "a name of 1 to 64 bytes",
        "Names the class of the filter, which the program must have; required.",
    ),
    (
        Format::Descriptor,
        "filter",
        "init-param",
        "a table of texts",
        "Sets the parameters of the filter; without it, there are none.",
    ),
    (
        Format::Descriptor,
        "filter-mapping",
        "filter-name",
        "a name of 1 to 64 bytes",
        "Names the filter that is mapped, which must be declared; required.",
    ),
    (
        Format::Descriptor,
        "filter-mapping",
        "url-pattern",
        "a list of at most 1,000 URL patterns",
        "Lists the patterns of the requests for which the filter runs; without it, `servlet-name` is required.",
    ),
    (
        Format::Descriptor,
        "filter-mapping",
        "servlet-name",
        "a list of at most 1,000 names of 1 to 64 bytes",
        "Lists the servlets for whose requests the filter runs, with `*` for all and `default` for static files; without it, `url-pattern` is required.",
    ),
    (
        Format::Descriptor,
        "filter-mapping",
        "dispatcher",
        "a list of at most 1,000 of the words REQUEST, FORWARD, INCLUDE and ERROR",
        "Lists the kinds of dispatches for which the filter runs; without it, it runs only for REQUEST.",
    ),
    (
        Format::Descriptor,
        "listener",
        "listener-class",
        "a name of 1 to 64 bytes",
        "Names the class of the listener, which the program must have; required.",
    ),
    (
        Format::Descriptor,
        "session-config",
        "session-timeout",
        "a number of minutes, at most 525600",
        "Sets the minutes without a request after which a session ends, 0 or less for never; without it, they are 30.",
    ),
    (
        Format::Descriptor,
        "session-config",
        "cookie-config",
        "a table",
        "Configures the session cookie, in a descriptor of version 2; without it, its keys have their defaults.",
    ),
    (
        Format::Descriptor,
        "cookie-config",
        "name",
        "a token of 1 to 64 bytes",
        "Sets the name of the session cookie; without it, the name is JSESSIONID.",
    ),
    (
        Format::Descriptor,
        "cookie-config",
        "path",
        "a text of 1 to 1,024 printable ASCII characters that begins with `/` and has no `;`",
        "Sets the path of the session cookie; without it, the path is that of the context.",
    ),
    (
        Format::Descriptor,
        "cookie-config",
        "http-only",
        "true or false",
        "Says whether the session cookie is hidden from scripts; without it, it is.",
    ),
    (
        Format::Descriptor,
        "cookie-config",
        "max-age",
        "a number of seconds from -1 to 2147483647",
        "Sets the seconds for which clients keep the session cookie, -1 for no limit of their own; without it, the number is -1.",
    ),
    (
        Format::Descriptor,
        "welcome-file-list",
        "welcome-file",
        "a list of at most 1,000 texts that are not empty and have no `/` at either end",
        "Lists the files that answer for a folder, in the order in which they are tried; required.",
    ),
    (
        Format::Descriptor,
        "error-page",
        "error-code",
        "a number from 400 to 599",
        "Sets the status that the page is for; without it and `exception-type`, the page is for all errors without a page of their own.",
    ),
    (
        Format::Descriptor,
        "error-page",
        "exception-type",
        "a name of 1 to 64 bytes in a table without `error-code`",
        "Sets the kind of failure that the page is for; without it and `error-code`, the page is for all errors without a page of their own.",
    ),
    (
        Format::Descriptor,
        "error-page",
        "location",
        "a path that begins with `/` and has a canonical form",
        "Sets the location of the page in the context; required.",
    ),
    (
        Format::Descriptor,
        "security-constraint",
        "web-resource-collection",
        "a list of 1 to 1,000 tables",
        "Lists the requests that the constraint covers; required.",
    ),
    (
        Format::Descriptor,
        "security-constraint",
        "auth-constraint",
        "a table",
        "Lists the roles that may enter; without it, everyone may.",
    ),
    (
        Format::Descriptor,
        "security-constraint",
        "user-data-constraint",
        "a table",
        "Says how the connection must be protected; without it, any connection will do.",
    ),
    (
        Format::Descriptor,
        "web-resource-collection",
        "web-resource-name",
        "a text",
        "Names the collection for readers, and is ignored.",
    ),
    (
        Format::Descriptor,
        "web-resource-collection",
        "url-pattern",
        "a list of 1 to 64 URL patterns, and of at most 64 in all collections of a constraint",
        "Lists the patterns of the covered requests; required.",
    ),
    (
        Format::Descriptor,
        "web-resource-collection",
        "http-method",
        "a list of 1 to 1,000 methods, which are tokens of at most 15 bytes",
        "Lists the covered methods; without it and `http-method-omission`, all methods are covered.",
    ),
    (
        Format::Descriptor,
        "web-resource-collection",
        "http-method-omission",
        "a list of 1 to 1,000 methods, which are tokens of at most 15 bytes",
        "Lists the methods that are not covered, while all others are; without it and `http-method`, all methods are covered.",
    ),
    (
        Format::Descriptor,
        "auth-constraint",
        "role-name",
        "a list of at most 1,000 names of 1 to 64 bytes",
        "Lists the roles that may enter, with `*` for all declared roles and `**` for every caller; without it, nobody may.",
    ),
    (
        Format::Descriptor,
        "user-data-constraint",
        "transport-guarantee",
        "NONE, INTEGRAL or CONFIDENTIAL",
        "Says whether the connection must be protected, which it need not be with NONE; required.",
    ),
    (
        Format::Descriptor,
        "security-role",
        "role-name",
        "a name of 1 to 64 bytes other than `*` and `**`",
        "Names the role; required, and different for each role.",
    ),
    (
        Format::Descriptor,
        "login-config",
        "auth-method",
        "the word FORM",
        "Sets the way to log in; required.",
    ),
    (
        Format::Descriptor,
        "login-config",
        "form-login-config",
        "a table",
        "Sets the pages of the login; required.",
    ),
    (
        Format::Descriptor,
        "form-login-config",
        "form-login-page",
        "a path that begins with `/` and has a canonical form",
        "Sets the location of the page that has the login form; required.",
    ),
    (
        Format::Descriptor,
        "form-login-config",
        "form-error-page",
        "a path that begins with `/` and has a canonical form",
        "Sets the location of the page that answers a login that failed; required.",
    ),
    (
        Format::Users,
        "",
        "user",
        "a list of at most 1,000 tables",
        "Lists the users; required.",
    ),
    (
        Format::Users,
        "user",
        "name",
        "a name of 1 to 64 bytes",
        "Names the user; required, and different for each user.",
    ),
    (
        Format::Users,
        "user",
        "salt",
        "at most 64 hexadecimal digits, an even number",
        "Is the salt of the password; required.",
    ),
    (
        Format::Users,
        "user",
        "digest",
        "64 hexadecimal digits",
        "Is the SHA-256 digest of the bytes of the salt, followed by those of the password; required.",
    ),
    (
        Format::Users,
        "user",
        "roles",
        "a list of at most 1,000 names of 1 to 64 bytes",
        "Lists the roles of the user; required.",
    ),
];
