//! Login steps, with their requests and the sessions of their context.

use crate::realm::realm;
use crate::stores::{number, sessions_after};
use std::alloc::Global;
use sv_login::{LoginOutcome, login_step};
use sv_realm::Realm;
use sv_rows::{Asks, Strays, cell, hold, unescaped};
use sv_session::Sessions;
use sv_text::{NoMemory, Text};
use sv_uri::path::Canon;

/// The media type of a form, written `form` in the rows.
const FORM: &str = "application/x-www-form-urlencoded";

/// The columns: calls that made the sessions; limit of the sessions; held session; method and path of the request; its
/// type; its body; outcome. A login gives the session that now has the caller, with its target. Each session with its
/// id, caller and target follows.
const SESSIONS: &str = r#"
-- without a session one is opened (Jakarta Servlet 6.0, section 13.6.3)
-               | 9 | - | POST /j_security_check | form | j_username=ann&j_password=bc | in 1 -; 1 \{47*0}1 0 -
-               | 9 | 7 | POST /j_security_check | form | j_username=ann&j_password=bc | in 1 -; 1 \{47*0}1 0 -
open            | 9 | - | POST /j_security_check | form | j_username=ann&j_password=bc | in 2 -; 1 \{47*0}1 - -; 2 \{47*0}2 0 -
open; end 1     | 9 | 1 | POST /j_security_check | form | j_username=ann&j_password=bc | in 2 -; 2 \{47*0}2 0 -
-- a held one gets another id and the caller, whoever held it before
open            | 9 | 1 | POST /j_security_check | form | j_username=ann&j_password=bc | in 1 -; 1 \{47*0}2 0 -
open; enter 1 5 | 9 | 1 | POST /j_security_check | form | j_username=ann&j_password=bc | in 1 -; 1 \{47*0}2 0 -
open; enter 1 0 | 9 | 1 | POST /j_security_check | form | j_username=ann&j_password=bc | in 1 -; 1 \{47*0}2 0 -
-- the target that was saved in it is taken, and that of another stays
open; save 1 /t | 9 | 1 | POST /j_security_check | form | j_username=ann&j_password=bc | in 1 /t; 1 \{47*0}2 0 -
open; open; save 2 /t | 9 | 1 | POST /j_security_check | form | j_username=ann&j_password=bc | in 1 -; 1 \{47*0}3 0 -; 2 \{47*0}2 - /t
-- at the limit none is opened, but a held one gets another id
open            | 1 | - | POST /j_security_check | form | j_username=ann&j_password=bc | no session; 1 \{47*0}1 - -
open            | 1 | 7 | POST /j_security_check | form | j_username=ann&j_password=bc | no session; 1 \{47*0}1 - -
open            | 1 | 1 | POST /j_security_check | form | j_username=ann&j_password=bc | in 1 -; 1 \{47*0}2 0 -
-- credentials are judged before a session is sought, and a wrong user changes nothing
open            | 1 | - | POST /j_security_check | form | j_username=ann&j_password=x  | wrong user; 1 \{47*0}1 - -
open; enter 1 5; save 1 /t | 9 | 1 | POST /j_security_check | form | j_username=ann&j_password=x | wrong user; 1 \{47*0}1 5 /t
-- nor does a request that is no login post
open; enter 1 5; save 1 /t | 9 | 1 | POST /x | form | j_username=ann&j_password=bc | no login; 1 \{47*0}1 5 /t
"#;

/// The same columns.
const REQUESTS: &str = r#"
-- the path ends in `/j_security_check`, with case, and the method is POST (section 13.6.3.1)
- | 9 | - | POST /a/j_security_check     | form | j_username=ann&j_password=bc | in 1 -; 1 \{47*0}1 0 -
- | 9 | - | POST /j_security_check/      | form | j_username=ann&j_password=bc | no login
- | 9 | - | POST /aj_security_check      | form | j_username=ann&j_password=bc | no login
- | 9 | - | POST /j_security_checks      | form | j_username=ann&j_password=bc | no login
- | 9 | - | POST /J_security_check       | form | j_username=ann&j_password=bc | no login
- | 9 | - | GET /j_security_check        | form | j_username=ann&j_password=bc | no login
- | 9 | - | post /j_security_check       | form | j_username=ann&j_password=bc | no login
- | 9 | - | POSTS /j_security_check      | form | j_username=ann&j_password=bc | no login
-- the media type is cut at `;`, trimmed and compared without case (RFC 9110, section 8.3.1)
- | 9 | - | POST /j_security_check | Application/X-WWW-Form-URLencoded | j_username=ann&j_password=bc | in 1 -; 1 \{47*0}1 0 -
- | 9 | - | POST /j_security_check | application/x-www-form-urlencoded;charset=utf-8 | j_username=ann&j_password=bc | in 1 -; 1 \{47*0}1 0 -
- | 9 | - | POST /j_security_check | application/x-www-form-urlencoded \t; a;b | j_username=ann&j_password=bc | in 1 -; 1 \{47*0}1 0 -
- | 9 | - | POST /j_security_check | application/x-www-form-urlencodeds | j_username=ann&j_password=bc | wrong user
- | 9 | - | POST /j_security_check | ;application/x-www-form-urlencoded | j_username=ann&j_password=bc | wrong user
- | 9 | - | POST /j_security_check | text/plain | j_username=ann&j_password=bc | wrong user
- | 9 | - | POST /j_security_check | - | j_username=ann&j_password=bc | wrong user
"#;

/// The same columns.
const FIELDS: &str = r#"
-- the first field of each name counts, wherever it stands
- | 9 | - | POST /j_security_check | form | j_password=bc&x=y&j_username=ann | in 1 -; 1 \{47*0}1 0 -
- | 9 | - | POST /j_security_check | form | j_username=ann&j_username=eve&j_password=bc&j_password= | in 1 -; 1 \{47*0}1 0 -
- | 9 | - | POST /j_security_check | form | j_username=eve&j_username=ann&j_password=&j_password=bc | in 1 -; 1 \{47*0}1 1 -
- | 9 | - | POST /j_security_check | form | j_username=eve&j_username=ann&j_password=bc | wrong user
-- a missing one is a wrong user, and an empty one is judged (URL Standard, section 5.1)
- | 9 | - | POST /j_security_check | form | j_username=eve&j_password= | in 1 -; 1 \{47*0}1 1 -
- | 9 | - | POST /j_security_check | form | j_username=eve&j_password  | in 1 -; 1 \{47*0}1 1 -
- | 9 | - | POST /j_security_check | form | j_username=eve             | wrong user
- | 9 | - | POST /j_security_check | form | j_password=bc              | wrong user
- | 9 | - | POST /j_security_check | form | j_username=&j_password=bc  | wrong user
- | 9 | - | POST /j_security_check | form | ""                         | wrong user
-- names and values are decoded, once, and compared with case
- | 9 | - | POST /j_security_check | form | j%5Fusername=%61nn&j%5fpassword=b%63 | in 1 -; 1 \{47*0}1 0 -
- | 9 | - | POST /j_security_check | form | j_username=ann&j_password=b%2563 | wrong user
- | 9 | - | POST /j_security_check | form | j_username=ann+&j_password=bc | wrong user
- | 9 | - | POST /j_security_check | form | J_username=ann&j_password=bc | wrong user
- | 9 | - | POST /j_security_check | form | j_username=Ann&j_password=bc | wrong user
"#;

#[test]
fn a_login_sets_its_caller_or_changes_nothing(rt: HostRuntime) -> Result<(), Strays> {
    let tables = [SESSIONS, REQUESTS, FIELDS];
    hold(&rt, &tables, &Logins(realm(rt.alloc())?))
}

/// Answers with the outcome of a row's login step.
#[derive(Drop)]
struct Logins(Realm);

impl Asks for Logins {
    const QUESTION: usize = 6;

    fn answer(&self, alloc: Global, row: &str, told: &mut Vec<u8>) -> Result<(), NoMemory> {
        let limit = number(cell(row, 1)) as usize;
        let mut sessions = sessions_after(alloc, limit, cell(row, 0))?;
        let outcome = step(alloc, row, &mut sessions, &self.0)?;
        told.extend_from_slice(told_outcome(alloc, outcome)?.as_bytes())?;
        told.extend_from_slice(told_sessions(alloc, &mut sessions)?.as_bytes())?;
        Ok(())
    }
}

fn step(
    alloc: Global,
    row: &str,
    sessions: &mut Sessions,
    realm: &Realm,
) -> Result<LoginOutcome, NoMemory> {
    let (method, path) = cell(row, 3).split_once(' ').unwrap_or(("", ""));
    let canon = Canon {
        path: Text::copy_of(alloc, path)?,
        query: None,
    };
    let content_type = content_type(alloc, cell(row, 4))?;
    let held = cell(row, 2).parse::<u64>().ok();
    login_step(
        alloc,
        &canon,
        method,
        content_type.as_ref().map(|text| text.as_slice()),
        cell(row, 5).as_bytes(),
        (0, 0),
        0,
        held,
        sessions,
        realm,
    )
}

/// Returns the content type of a cell: `-` means none, and `form` means that of a form.
fn content_type(alloc: Global, cell: &str) -> Result<Option<Vec<u8>>, NoMemory> {
    match cell {
        "-" => Ok(None),
        "form" => Ok(Some(unescaped(alloc, FORM)?)),
        _ => Ok(Some(unescaped(alloc, cell)?)),
    }
}

fn told_outcome(alloc: Global, outcome: LoginOutcome) -> Result<String, NoMemory> {
    match outcome {
        LoginOutcome::NotLogin => Ok(String::from_str(alloc, "no login")?),
        LoginOutcome::WrongUser => Ok(String::from_str(alloc, "wrong user")?),
        LoginOutcome::NoSession => Ok(String::from_str(alloc, "no session")?),
        LoginOutcome::Passed { number, target } => {
            let target = told_target(alloc, target)?;
            Ok(format!(in alloc; "in {number} {}", target.as_str())?)
        }
    }
}

fn told_target(alloc: Global, target: Option<Text>) -> Result<String, NoMemory> {
    match target {
        Some(target) => Ok(String::from_str(alloc, target.as_str())?),
        None => Ok(String::from_str(alloc, "-")?),
    }
}

/// Returns the sessions among 1 to 3 that are alive, each with its id, caller and target.
fn told_sessions(alloc: Global, sessions: &mut Sessions) -> Result<String, NoMemory> {
    let mut told = String::new(alloc);
    for number in 1..=3u64 {
        let caller = match sessions.caller(number) {
            Some(caller) => format!(in alloc; "{caller}")?,
            None => String::from_str(alloc, "-")?,
        };
        let target = told_target(alloc, sessions.take_saved(number))?;
        if let Some(id) = sessions.id(number) {
            let (caller, target) = (caller.as_str(), target.as_str());
            told.push_str(format!(in alloc; "; {number} {id} {caller} {target}")?.as_str())?;
        }
    }
    Ok(told)
}
