//! The components of a context: boxed classes of the program, and boxed scripts.

use crate::results::both;
use crate::scripts::Script;
use crate::words::{first_word, is_nothing};
use std::alloc::Global;
use sv_component::{Filter, Servlet};
use sv_deployments::{
    Bye, ErrorCode, Fail, Go, Gone, Halt, Keep, Log, Mark, Nest, Out, Paths, Who,
};
use sv_live::{Live, Named, Parts};
use sv_rows::cell;
use sv_text::{NoMemory, Text};

/// The components of a context.
pub type TestParts = Parts<Box<dyn Servlet>, Box<dyn Filter>, Log>;

type TestServlets = Vec<Named<Box<dyn Servlet>>>;

type TestFilters = Vec<Named<Box<dyn Filter>>>;

/// A started context.
pub type TestLive = Live<Box<dyn Servlet>, Box<dyn Filter>, Log>;

/// Returns the components that a row declares.
pub fn parts(alloc: Global, row: &str) -> Result<TestParts, NoMemory> {
    let named = both(servlets(alloc, row), filters(alloc, row));
    match both(named, listeners(alloc, row)) {
        Ok(values) => Ok(parts_of(values)),
        Err(NoMemory) => Err(NoMemory),
    }
}

fn parts_of(values: ((TestServlets, TestFilters), Vec<Log>)) -> TestParts {
    let (named, listeners) = values;
    let (servlets, filters) = named;
    Parts {
        servlets,
        filters,
        listeners,
    }
}

fn servlets(alloc: Global, row: &str) -> Result<TestServlets, NoMemory> {
    let mut servlets = Vec::new(alloc);
    for part in cell(row, 0).split(';') {
        let part = part.trim();
        if !is_nothing(part) {
            let (name, class) = declared(part);
            add(alloc, name, servlet(alloc, class), &mut servlets)?;
        }
    }
    Ok(servlets)
}

fn filters(alloc: Global, row: &str) -> Result<TestFilters, NoMemory> {
    let mut filters = Vec::new(alloc);
    for part in cell(row, 1).split(';') {
        let (name, class) = declared(part.trim());
        if !is_nothing(name) && !name.ends_with(":") {
            add(alloc, name, filter(alloc, class), &mut filters)?;
        }
    }
    Ok(filters)
}

fn listeners(alloc: Global, row: &str) -> Result<Vec<Log>, NoMemory> {
    let mut listeners = Vec::new(alloc);
    for part in cell(row, 2).split(';') {
        if part.trim() == "listener" {
            listeners.push(Log::new())?;
        }
    }
    Ok(listeners)
}

/// Returns the name and the class of a component.
fn declared(part: &str) -> (&str, &str) {
    let (name, rest) = first_word(part);
    let (class, _) = first_word(rest);
    (name, class)
}

/// Adds a component with its name.
fn add<C: Drop>(
    alloc: Global,
    name: &str,
    component: Result<C, NoMemory>,
    components: &mut Vec<Named<C>>,
) -> Result<(), NoMemory> {
    let component = component?;
    let name = Text::copy_of(alloc, name)?;
    components.push(Named { name, component })?;
    Ok(())
}

fn servlet(alloc: Global, class: &str) -> Result<Box<dyn Servlet>, NoMemory> {
    match class {
        "Who" => Ok(Box::new(alloc, Who::new())?),
        "Paths" => Ok(Box::new(alloc, Paths::new())?),
        "Nest" => Ok(Box::new(alloc, Nest::new(alloc))?),
        "Go" => Ok(Box::new(alloc, Go::new(alloc))?),
        "Fail" => Ok(Box::new(alloc, Fail::new(alloc))?),
        "Err" => Ok(Box::new(alloc, ErrorCode::new())?),
        _ => other_servlet(alloc, class),
    }
}

fn other_servlet(alloc: Global, class: &str) -> Result<Box<dyn Servlet>, NoMemory> {
    match class {
        "Gone" => Ok(Box::new(alloc, Gone::new())?),
        "Keep" => Ok(Box::new(alloc, Keep::new())?),
        "Bye" => Ok(Box::new(alloc, Bye::new())?),
        "Out" => Ok(Box::new(alloc, Out::new())?),
        _ => Ok(Box::new(alloc, Script::new(alloc))?),
    }
}

fn filter(alloc: Global, class: &str) -> Result<Box<dyn Filter>, NoMemory> {
    match class {
        "Mark" => Ok(Box::new(alloc, Mark::new(alloc))?),
        "Halt" => Ok(Box::new(alloc, Halt::new())?),
        _ => Ok(Box::new(alloc, Script::new(alloc))?),
    }
}
