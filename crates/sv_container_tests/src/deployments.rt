//! The deployments of a row.

use crate::counted_components::{Counted, Counts};
use crate::descriptors::{descriptor_text, file_lines};
use crate::results::{beside, both, made, push};
use bytes::Bytes;
use std::alloc::Global;
use sv_component::Named;
use sv_container::{Container, NewFault};
use sv_deployments::{ProgramFilter, ProgramListener, ProgramServlet, parts_of};
use sv_descriptor::{Descriptor, read_descriptor, read_users};
use sv_files::{File, Files};
use sv_lifecycle::Deployment;
use sv_live::Parts;
use sv_realm::{MAX_USERS, Realm};
use sv_run::CountedWords;
use sv_text::{NoMemory, Text};

/// The deployment of a context with counted components of the program's own classes.
pub type TestDeployment = Deployment<
    Counted<ProgramServlet>,
    Counted<ProgramFilter>,
    Counted<ProgramListener>,
>;

/// A container of the program's own classes that counts their calls.
pub type TestContainer = Container<
    Counted<ProgramServlet>,
    Counted<ProgramFilter>,
    Counted<ProgramListener>,
    CountedWords,
>;

/// A start of such a container that failed.
pub type TestFault = NewFault<
    Counted<ProgramServlet>,
    Counted<ProgramFilter>,
    Counted<ProgramListener>,
>;

type TestNamed<C> = Vec<Named<Counted<C>>>;

type TestParts = Parts<Counted<ProgramServlet>, Counted<ProgramFilter>, Counted<ProgramListener>>;

/// The user of each context, who has the role a. The digest is SHA-256 of `abc` (FIPS 180-4, the one-block example).
const USERS: &str = r#"
[[user]]
name = "ann"
salt = "61"
roles = ["a"]
digest = "ba7816bf8f01cfea414140de5dae2223b00361a396177a9cb410ff61f20015ad"
"#;

/// Returns the deployments of a cell, separated by blanks. `NAME@PATH` is the descriptor of that name at that path.
/// `*COUNT` is that number of contexts without components, at `/1`, `/2` and so on.
pub fn deployments(
    alloc: Global,
    words: &str,
    counts: &mut Counts,
) -> Result<Vec<TestDeployment>, NoMemory> {
    let mut named = Vec::new(alloc);
    for word in words.split_ascii_whitespace() {
        add(alloc, word, &mut named, counts)?;
    }
    Ok(named)
}

fn add(
    alloc: Global,
    word: &str,
    list: &mut Vec<TestDeployment>,
    counts: &mut Counts,
) -> Result<(), NoMemory> {
    match word.strip_prefix("*") {
        Some(count) => add_many(alloc, count.parse::<u32>().unwrap_or(0), list, counts),
        None => {
            let (name, path) = word.split_once('@').unwrap_or((word, ""));
            push(list, deployment(alloc, name, path, counts))
        }
    }
}

fn add_many(
    alloc: Global,
    count: u32,
    list: &mut Vec<TestDeployment>,
    counts: &mut Counts,
) -> Result<(), NoMemory> {
    for number in 0..count {
        let path = format!(in alloc; "/{}", number.saturating_add(1))?;
        push(list, deployment(alloc, "", path.as_str(), counts))?;
    }
    Ok(())
}

fn deployment(
    alloc: Global,
    name: &str,
    path: &str,
    counts: &mut Counts,
) -> Result<TestDeployment, NoMemory> {
    let kept = both(files(alloc, file_lines(name)), users(alloc));
    let named = both(Text::copy_of(alloc, path), kept);
    match both(named, described(alloc, name, path, counts)) {
        Ok(values) => Ok(deployment_of(values)),
        Err(NoMemory) => Err(NoMemory),
    }
}

fn deployment_of(values: ((Text, (Files, Realm)), (Descriptor, TestParts))) -> TestDeployment {
    let (named, described) = values;
    let (path, kept) = named;
    let (files, users) = kept;
    let (descriptor, parts) = described;
    Deployment {
        path,
        descriptor,
        files,
        users,
        parts,
    }
}

/// Returns the descriptor of this name, and its components.
fn described(
    alloc: Global,
    name: &str,
    path: &str,
    counts: &mut Counts,
) -> Result<(Descriptor, TestParts), NoMemory> {
    let descriptor = made(read_descriptor(alloc, descriptor_text(name)))?;
    let parts = counted_parts(alloc, path, &descriptor, counts);
    beside(descriptor, parts)
}

/// Returns the files of these lines: each is a path and the text of that file, which ends in a line feed.
fn files(alloc: Global, lines: &str) -> Result<Files, NoMemory> {
    let mut files = Vec::new(alloc);
    for line in lines.lines() {
        push(&mut files, file(alloc, line))?;
    }
    made(Files::from_list(alloc, files))
}

fn file(alloc: Global, line: &str) -> Result<File, NoMemory> {
    let (path, text) = line.split_once(' ').unwrap_or((line, ""));
    let text = format!(in alloc; "{text}\n")?;
    Ok(File {
        path: Text::copy_of(alloc, path)?,
        bytes: Bytes::copy_from_slice(alloc, text.as_bytes())?,
    })
}

fn users(alloc: Global) -> Result<Realm, NoMemory> {
    let users = made(read_users(alloc, USERS))?;
    if users.len() > MAX_USERS {
        return Err(NoMemory);
    }
    Realm::from_users(alloc, users)
}

fn counted_parts(
    alloc: Global,
    path: &str,
    descriptor: &Descriptor,
    counts: &mut Counts,
) -> Result<TestParts, NoMemory> {
    let Parts {
        servlets,
        filters,
        listeners,
    } = made(parts_of(alloc, descriptor))?;
    let servlets = counted_all(alloc, "servlet", path, servlets, counts);
    let filters = counted_all(alloc, "filter", path, filters, counts);
    let listeners = counted_listeners(alloc, path, listeners, counts);
    match both(both(servlets, filters), listeners) {
        Ok(values) => Ok(parts_with(values)),
        Err(NoMemory) => Err(NoMemory),
    }
}

fn parts_with(
    values: (
        (TestNamed<ProgramServlet>, TestNamed<ProgramFilter>),
        Vec<Counted<ProgramListener>>,
    ),
) -> TestParts {
    let (named, listeners) = values;
    let (servlets, filters) = named;
    Parts {
        servlets,
        filters,
        listeners,
    }
}

fn counted_all<C: Drop>(
    alloc: Global,
    kind: &str,
    path: &str,
    components: Vec<Named<C>>,
    counts: &mut Counts,
) -> Result<Vec<Named<Counted<C>>>, NoMemory> {
    let mut counted = Vec::new(alloc);
    for named in components {
        counted.push(counted_one(alloc, kind, path, named, counts)?)?;
    }
    Ok(counted)
}

fn counted_one<C: Drop>(
    alloc: Global,
    kind: &str,
    path: &str,
    named: Named<C>,
    counts: &mut Counts,
) -> Result<Named<Counted<C>>, NoMemory> {
    let Named { name, component } = named;
    let front = format!(in alloc; "called {} {kind} {name} ", shown(path))?;
    let component = counts.counted(front, component)?;
    Ok(Named { name, component })
}

fn counted_listeners<C: Drop>(
    alloc: Global,
    path: &str,
    listeners: Vec<C>,
    counts: &mut Counts,
) -> Result<Vec<Counted<C>>, NoMemory> {
    let mut counted = Vec::new(alloc);
    let mut number = 0u32;
    for listener in listeners {
        number = number.saturating_add(1);
        let front = format!(in alloc; "told {} {number} ", shown(path))?;
        counted.push(counts.counted(front, listener)?)?;
    }
    Ok(counted)
}

/// Returns a context path as it is shown.
pub fn shown(path: &str) -> &str {
    if path.is_empty() { "/" } else { path }
}
