//! The results of reading configuration files: names, patterns, numbers, and defaults for missing elements; or the
//! number, the name and the key of a fault.

use crate::summary::{add_descriptor, add_server_file, add_users_file};
use std::alloc::Global;
use sv_rows::{Asks, Draft, Strays, cell, hold, unescaped_text};
use sv_text::NoMemory;

/// The columns: format; file; result of reading it.
const ROWS: &str = r#"
-- what stands for what is missing
descriptor | "" | timeout 30
descriptor | version = 1 | timeout 30
descriptor | deny-uncovered-http-methods = false | timeout 30
descriptor | deny-uncovered-http-methods = true | deny uncovered ; timeout 30
descriptor | description = 1\nsession-config = { description = 5 } | timeout 30

-- minutes without a request, where none at all and less are for ever
descriptor | session-config = {} | timeout 30
descriptor | session-config = { session-timeout = 1 } | timeout 1
descriptor | session-config = { session-timeout = 525600 } | timeout 525600
descriptor | session-config = { session-timeout = 0 } | timeout 0
descriptor | session-config = { session-timeout = -1 } | timeout 0
descriptor | session-config = { session-timeout = -4294967295 } | timeout 0
descriptor | session-config = { session-timeout = -9223372036854775808 } | timeout 0
descriptor | session-config = { session-timeout = 0x1E } | timeout 30
descriptor | session-config.session-timeout = 5 | timeout 5

-- version 2: how many sessions there may be, and how their cookie is set
descriptor | version = 2 | timeout 30 ; sessions 100000 ; cookie JSESSIONID HttpOnly
descriptor | version = 2\nsession-config = { session-timeout = 1 } | timeout 1 ; sessions 100000 ; cookie JSESSIONID HttpOnly
descriptor | version = 2\nsession-config = { cookie-config = {} } | timeout 30 ; sessions 100000 ; cookie JSESSIONID HttpOnly
descriptor | version = 2\nsession-config.cookie-config = { name = "SID", path = "/app", http-only = false, max-age = 60 } | timeout 30 ; sessions 100000 ; cookie SID at /app for 60
descriptor | version = 2\nsession-config.cookie-config = { max-age = -1, http-only = true, path = "/a b%20", description = 1 } | timeout 30 ; sessions 100000 ; cookie JSESSIONID at /a b%20 HttpOnly
descriptor | version = 2\nsession-config.cookie-config = { max-age = 0 } | timeout 30 ; sessions 100000 ; cookie JSESSIONID for 0 HttpOnly
descriptor | version = 2\nsession-config.cookie-config = { max-age = 2147483647 } | timeout 30 ; sessions 100000 ; cookie JSESSIONID for 2147483647 HttpOnly

-- servlets in the order of the file, parameters in the order of their names
descriptor | servlet = [{ servlet-name = "b", servlet-class = "B" }, { servlet-name = "a", servlet-class = "B" }] | servlet b B ; servlet a B ; timeout 30
descriptor | servlet = [{ servlet-name = "a", servlet-class = "A", load-on-startup = 0 }] | servlet a A load 0 ; timeout 30
descriptor | servlet = [{ servlet-name = "a", servlet-class = "A", load-on-startup = -2147483648 }] | servlet a A load -2147483648 ; timeout 30
descriptor | servlet = [{ servlet-name = "a", servlet-class = "A", load-on-startup = 2147483647 }] | servlet a A load 2147483647 ; timeout 30
descriptor | servlet = [{ servlet-name = "a", servlet-class = "A", init-param = { q = "2", p = "1", P = "", description = "d" } }] | servlet a A P= description=d p=1 q=2 ; timeout 30
descriptor | servlet = [{ servlet-name = "a", servlet-class = "A", display-name = "d", init-param = {} }] | servlet a A ; timeout 30
descriptor | [[servlet]]\nservlet-name = "a"\nservlet-class = "A"\n[servlet.init-param]\n"x y" = "\\u00E9"\n'' = "e" | servlet a A =e x y=é ; timeout 30

-- mappings and patterns in the order of the file
descriptor | servlet = [{ servlet-name = "a", servlet-class = "A" }]\nservlet-mapping = [{ servlet-name = "a", url-pattern = ["/y/*", "/x"] }, { servlet-name = "a", url-pattern = ["*.z", "", "/"] }] | servlet a A ; map a to "/y/*" "/x" ; map a to "*.z" "" "/" ; timeout 30
descriptor | servlet-mapping = [{ servlet-name = "a", url-pattern = ["/a//b%20;x"] }]\nservlet = [{ servlet-name = "a", servlet-class = "A" }] | servlet a A ; map a to "/a//b%20;x" ; timeout 30

-- filters and their mappings, each with the lists that it has
descriptor | filter = [{ filter-name = "g", filter-class = "F", init-param = { p = "v" } }, { filter-name = "f", filter-class = "F" }] | filter g F p=v ; filter f F ; timeout 30
descriptor | filter = [{ filter-name = "f", filter-class = "F" }]\nfilter-mapping = [{ filter-name = "f", url-pattern = ["/y", "/x"] }, { filter-name = "f", servlet-name = ["*", "default"] }] | filter f F ; filter f on "/y" "/x" servlets for ; filter f on servlets * default for ; timeout 30
descriptor | filter = [{ filter-name = "f", filter-class = "F" }]\nfilter-mapping = [{ filter-name = "f", url-pattern = [], dispatcher = [] }] | filter f F ; filter f on servlets for ; timeout 30
descriptor | filter = [{ filter-name = "f", filter-class = "F" }]\nfilter-mapping = [{ filter-name = "f", url-pattern = ["/x"], dispatcher = ["ERROR", "REQUEST", "INCLUDE", "FORWARD"] }] | filter f F ; filter f on "/x" servlets for ERROR REQUEST INCLUDE FORWARD ; timeout 30

-- listeners, welcome files, error pages
descriptor | listener = [{ listener-class = "L" }, { listener-class = "K" }, { listener-class = "L" }] | listener L ; listener K ; listener L ; timeout 30
descriptor | welcome-file-list = { welcome-file = ["index.html", "a/b", "index.html"] } | timeout 30 ; welcome index.html ; welcome a/b ; welcome index.html
descriptor | welcome-file-list = { welcome-file = [] } | timeout 30
descriptor | error-page = [{ location = "/e" }, { error-code = 404, location = "/x/../n?q=1" }, { exception-type = "K", location = "/k;j" }, { error-code = 400, location = "/" }, { error-code = 599, location = "/" }] | timeout 30 ; page for any at /e ; page 404 at /x/../n?q=1 ; page K at /k;j ; page 400 at / ; page 599 at /

-- constraints are numbered from 1; what they say nothing of is absent, and that differs from a list of no roles and from NONE
descriptor | security-constraint = [{ web-resource-collection = [{ url-pattern = ["/x"] }] }] | timeout 30 ; constraint 1 on "/x" open over Absent
descriptor | security-constraint = [{ web-resource-collection = [{ url-pattern = ["/x"] }], auth-constraint = {} }] | timeout 30 ; constraint 1 on "/x" roles over Absent
descriptor | security-constraint = [{ web-resource-collection = [{ url-pattern = ["/x"] }], auth-constraint = { role-name = [] } }] | timeout 30 ; constraint 1 on "/x" roles over Absent
descriptor | security-constraint = [{ web-resource-collection = [{ url-pattern = ["/x"] }], auth-constraint = { role-name = ["b", "*", "a", "**"] } }] | timeout 30 ; constraint 1 on "/x" roles b * a ** over Absent
descriptor | security-constraint = [{ web-resource-collection = [{ url-pattern = ["/x"] }], user-data-constraint = { transport-guarantee = "NONE" } }] | timeout 30 ; constraint 1 on "/x" open over Plain
descriptor | security-constraint = [{ web-resource-collection = [{ url-pattern = ["/x"] }], user-data-constraint = { transport-guarantee = "INTEGRAL" } }] | timeout 30 ; constraint 1 on "/x" open over Integral
descriptor | security-constraint = [{ web-resource-collection = [{ url-pattern = ["/x"] }], user-data-constraint = { transport-guarantee = "CONFIDENTIAL" } }] | timeout 30 ; constraint 1 on "/x" open over Confidential
descriptor | security-constraint = [{ web-resource-collection = [{ web-resource-name = "n", url-pattern = ["/y", "/x"], http-method = ["PUT", "get"] }, { url-pattern = ["", "*.z"], http-method-omission = ["GET"] }, { url-pattern = ["/"] }] }] | timeout 30 ; constraint 1 on "/y" "/x" only PUT get on "" "*.z" except GET on "/" open over Absent
descriptor | security-constraint = [{ web-resource-collection = [{ url-pattern = ["/0"] }] },{ web-resource-collection = [{ url-pattern = ["/1"] }] },{ web-resource-collection = [{ url-pattern = ["/0"] }] }] | timeout 30 ; constraint 1 on "/0" open over Absent ; constraint 2 on "/1" open over Absent ; constraint 3 on "/0" open over Absent

-- roles and the login
descriptor | security-role = [{ role-name = "b" }, { role-name = "a" }] | timeout 30 ; role b ; role a
descriptor | login-config = { auth-method = "FORM", form-login-config = { form-error-page = "/e", form-login-page = "/l" } } | timeout 30 ; login /l /e
descriptor | login-config = { auth-method = "FORM", form-login-config = { form-login-page = "/a/../l?q", form-error-page = "/" } } | timeout 30 ; login /a/../l?q /

-- the descriptors of the demonstration
descriptor | [[servlet]]\nservlet-name = "who"\nservlet-class = "Who"\n[[servlet]]\nservlet-name = "nest"\nservlet-class = "Nest"\ninit-param = { path = "/nest" }\n[[servlet]]\nservlet-name = "go"\nservlet-class = "Go"\ninit-param = { path = "/WEB-INF/page.html" }\n[[servlet]]\nservlet-name = "keep"\nservlet-class = "Keep"\n[[servlet-mapping]]\nservlet-name = "who"\nurl-pattern = ["/who"]\n[[servlet-mapping]]\nservlet-name = "nest"\nurl-pattern = ["/nest"]\n[[servlet-mapping]]\nservlet-name = "go"\nurl-pattern = ["/go"]\n[[servlet-mapping]]\nservlet-name = "keep"\nurl-pattern = ["/keep"]\n[[filter]]\nfilter-name = "mark"\nfilter-class = "Mark"\n[[filter-mapping]]\nfilter-name = "mark"\nurl-pattern = ["/*"]\ndispatcher = ["FORWARD"]\n[[listener]]\nlistener-class = "Log"\n[[listener]]\nlistener-class = "Log"\n[session-config]\nsession-timeout = 1\n[[security-constraint]]\nweb-resource-collection = [{ url-pattern = ["/admin/*"] }]\nauth-constraint = { role-name = ["a"] }\n[[security-role]]\nrole-name = "a"\n[login-config]\nauth-method = "FORM"\nform-login-config = { form-login-page = "/login.html", form-error-page = "/error.html" } | servlet who Who ; servlet nest Nest path=/nest ; servlet go Go path=/WEB-INF/page.html ; servlet keep Keep ; map who to "/who" ; map nest to "/nest" ; map go to "/go" ; map keep to "/keep" ; filter mark Mark ; filter mark on "/*" servlets for FORWARD ; listener Log ; listener Log ; timeout 1 ; constraint 1 on "/admin/*" roles a over Absent ; role a ; login /login.html /error.html
descriptor | [[servlet]]\nservlet-name = "keep"\nservlet-class = "Keep"\n[[servlet-mapping]]\nservlet-name = "keep"\nurl-pattern = ["/keep"]\n[session-config]\nsession-timeout = 0 | servlet keep Keep ; map keep to "/keep" ; timeout 0

-- a server file
server | port = 0\nseed = "\{64*0}"\ncontext = [] | port 0 ; seed \{64*0}
server | port = 65535\nseed = "\{4*0123456789abcdef}"\ncontext = [] | port 65535 ; seed \{4*0123456789abcdef}
server | port = 0x1F90\nseed = "\{4*0123456789ABCDEF}"\ncontext = [] | port 8080 ; seed \{4*0123456789abcdef}
server | port = 1\nseed = "\{16*aBcD}"\ncontext = [] | port 1 ; seed \{16*abcd}
server | port = 1\nseed = "01\{62*0}"\ncontext = [{ path = "/b", descriptor = "d.toml", files = "f", users = "u.toml" }, { path = "", descriptor = "", files = "" }, { path = "/a", descriptor = "../e", files = " ", users = "" }] | port 1 ; seed 01\{62*0} ; context "/b" descriptor "d.toml" files "f" users "u.toml" ; context "" descriptor "" files "" ; context "/a" descriptor "../e" files " " users ""

-- the server of the demonstration
server | port = 0\nseed = "0000000000000000000000000000000000000000000000000000000000000000"\n[[context]]\npath = ""\ndescriptor = "root.toml"\nfiles = "files"\nusers = "users.toml"\n[[context]]\npath = "/two"\ndescriptor = "two.toml"\nfiles = "" | port 0 ; seed 0000000000000000000000000000000000000000000000000000000000000000 ; context "" descriptor "root.toml" files "files" users "users.toml" ; context "/two" descriptor "two.toml" files ""

-- a users file
users | user = [] | ""
users | user = [{ name = "a", salt = "", digest = "\{64*0}", roles = [] }] | user a salt  digest \{64*0} roles
users | user = [{ name = "b", salt = "fF0a", digest = "\{4*0123456789ABCDEF}", roles = ["s", "r", "*"] }, { name = "a", salt = "\{32*Ab}", digest = "\{4*0123456789abcdef}", roles = ["r", "r"] }] | user b salt ff0a digest \{4*0123456789abcdef} roles s r * ; user a salt \{32*ab} digest \{4*0123456789abcdef} roles r r
users | [[user]]\nroles = ["r"]\ndigest = "\{64*f}"\nsalt = "00"\nname = "c" | user c salt 00 digest \{64*f} roles r

-- the user of the demonstration
users | [[user]]\nname = "ann"\nsalt = "61"\ndigest = "ba7816bf8f01cfea414140de5dae2223b00361a396177a9cb410ff61f20015ad"\nroles = ["a"] | user ann salt 61 digest ba7816bf8f01cfea414140de5dae2223b00361a396177a9cb410ff61f20015ad roles a

-- each fault of a descriptor: its number, its name, its key
descriptor | x = | fault 1 NotToml ""
descriptor | [servlets] | fault 2 UnknownKey "servlets"
descriptor | [[servlet]]\nservlet-name = "a" | fault 3 MissingKey "servlet-class"
descriptor | [session-config]\nsession-timeout = "x" | fault 4 WrongType "session-timeout"
descriptor | [session-config]\nsession-timeout = 525601 | fault 11 BadTimeout "session-timeout"
descriptor | [[servlet]]\nservlet-name = "a"\nservlet-class = "A"\n[[servlet-mapping]]\nservlet-name = "a"\nurl-pattern = ["x"] | fault 5 BadPattern "url-pattern"
descriptor | [[servlet-mapping]]\nservlet-name = "a"\nurl-pattern = ["x"] | fault 5 BadPattern "url-pattern"
descriptor | [[servlet]]\nservlet-name = "a"\nservlet-class = "A"\n[[servlet]]\nservlet-name = "b"\nservlet-class = "B"\n[[servlet-mapping]]\nservlet-name = "a"\nurl-pattern = ["/x"]\n[[servlet-mapping]]\nservlet-name = "b"\nurl-pattern = ["/x"] | fault 6 DuplicatePattern "url-pattern"
descriptor | [[servlet-mapping]]\nservlet-name = "a"\nurl-pattern = ["/x"] | fault 7 UnknownServlet "servlet-name"
descriptor | [[filter-mapping]]\nfilter-name = "f"\nurl-pattern = ["/*"] | fault 8 UnknownFilter "filter-name"
descriptor | [[security-constraint]]\nweb-resource-collection = [{ url-pattern = ["/x"], http-method = ["GET"], http-method-omission = ["PUT"] }] | fault 9 BothMethodLists "http-method-omission"
descriptor | [[security-role]]\nrole-name = "**" | fault 10 ReservedRole "role-name"
descriptor | version = 3 | fault 12 BadValue "version"
descriptor | session-config = { cookie-config = {} } | fault 2 UnknownKey "cookie-config"
descriptor | version = 1\nsession-config = { cookie-config = {} } | fault 2 UnknownKey "cookie-config"
descriptor | version = 2\nsession-config.cookie-config.name = "a b" | fault 12 BadValue "name"
descriptor | [[servlet]]\nservlet-name = "a"\nservlet-class = "A"\n[[servlet]]\nservlet-name = "a"\nservlet-class = "B" | fault 13 DuplicateName "servlet-name"
descriptor | \{1001*[[security-role]]\nrole-name = "r"\n} | fault 14 TooMany "security-role"
"#;

#[test]
fn a_file_is_read_as_it_is_written(rt: HostRuntime) -> Result<(), Strays> {
    hold(&rt, &[ROWS], &Summaries)
}

/// Answers with the result of reading a file.
struct Summaries;

impl Asks for Summaries {
    const QUESTION: usize = 2;

    fn answer(&self, alloc: Global, row: &str, answer: &mut Vec<u8>) -> Result<(), NoMemory> {
        let text = unescaped_text(alloc, cell(row, 1))?;
        let mut draft = Draft::new(alloc);
        match cell(row, 0) {
            "descriptor" => add_descriptor(&mut draft, alloc, text.as_str()),
            "server" => add_server_file(&mut draft, alloc, text.as_str()),
            _ => add_users_file(&mut draft, alloc, text.as_str()),
        }
        draft.add_to(answer)
    }
}
