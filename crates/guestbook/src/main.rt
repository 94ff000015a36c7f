//! A guestbook with logins and roles, which keeps its entries in a SQLite file. Runs as `./guestbook PORT [FILE]`.
#![tactic(auto)]

use anyhow::bail;
use guestbook_components::{Book, site_of};
use sqlite::{Alter, Connection};
use std::env;
use std::net::Net;
use std::process::ExitCode;
use std::random::RandomSource;
use std::rt::Env;
use std::time::Clock;
use sv_servlet::{Options, exit_code, run_application};

/// The default file of the entries.
const FILE: &str = "guestbook.db";

/// Serves the guestbook of this database until the process ends.
fn run<R: Net + Clock + RandomSource + Print + Eprint + AllocGlobal, S: Alter + Drop>(
    rt: &R,
    options: Options,
    connection: Connection<S>,
) -> anyhow::Result<ExitCode> {
    let Ok(book) = Book::new(connection) else {
        bail!("the file is no guestbook");
    };
    let site = site_of(rt.alloc(), book)?;
    Ok(exit_code(rt, run_application(rt, site, options)))
}

// Serves the guestbook of this file. Separate from `main`, so that few steps see the type of its database.
fn serve(rt: &HostRuntime, options: Options, file: &str) -> anyhow::Result<ExitCode> {
    match Connection::open(rt, file) {
        Ok(connection) => run(rt, options, connection),
        Err(error) => bail!("{file} cannot be opened: {error}"),
    }
}

fn main(rt: HostRuntime) -> anyhow::Result<ExitCode> {
    let mut arguments = env::args(&rt)?.skip(1);
    let port = arguments
        .next()
        .and_then(|text| text.as_str().parse::<u16>().ok());
    let Some(port) = port else {
        eprintln!(rt; "usage: guestbook PORT [FILE]")?;
        return Ok(ExitCode::from(2));
    };
    let file = arguments.next();
    let file = file.as_ref().map_or(FILE, |name| name.as_str());
    serve(&rt, Options::at_port(port), file)
}
