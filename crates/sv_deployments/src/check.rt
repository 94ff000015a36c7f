//! The check of a server's contexts, which reads everything that a start reads and starts nothing.

ghost use Rattle.std.specs.Prelude.{◌≡◌, ◌++◌, [], Ok, length, IfOk};
ghost use Rattle.sv_deployments.specs.Check as spec;
ghost use Rattle.sv_deployments.specs.Counted as counted;
ghost use Rattle.sv_files.specs.Fault.{list_faults};
ghost use Rattle.sv_program.specs.CommandFault.{command_fault};
ghost use Rattle.sv_program.specs.Configuration.{Step};
ghost use Rattle.sv_text.specs.Gives.{Gives, GivesAnswer};

use crate::deployments::{files_in, parts_in};
use crate::folders::{FolderFiles, FolderStore, FoundContext, read_folders};
use std::alloc::Global;
use sv_descriptor::{ContextEntry, Descriptor};
use sv_files::File;
use sv_program::{
    CommandFault, ContextTexts, FileStore, descriptor_in, read_contexts, read_server_file, users_in,
};
use sv_text::{Listed, NoMemory, Text};

/// The contexts of a server that were checked.
#[derive(Drop)]
pub struct CheckedServer {
    /// Of each context the first fault of its descriptor, of its users file, of its folder and of its classes, in this
    /// order.
    pub faults: Listed<CommandFault>,
    /// The contexts in order.
    pub contexts: Listed<CheckedContext>,
}

/// A context that was checked.
#[derive(Drop)]
pub struct CheckedContext {
    /// The context path.
    pub path: Text,
    /// What it has, unless it has a fault.
    pub counts: Option<ContextCounts>,
}

/// How much of everything a context has.
#[derive(Clone, Copy)]
pub struct ContextCounts {
    /// The servlets of its descriptor.
    pub servlets: usize,
    /// The filters of its descriptor.
    pub filters: usize,
    /// The listeners of its descriptor.
    pub listeners: usize,
    /// The security constraints of its descriptor.
    pub constraints: usize,
    /// The users of its users file.
    pub users: usize,
    /// Its static files.
    pub files: usize,
    /// The bytes of all its static files.
    pub bytes: usize,
}

/// Reads everything that [`read_deployments`](crate::read_deployments) reads, and checks each context. Nothing is
/// started.
///
/// # Errors
/// The fault of the server file ([`CommandFault::File`], [`CommandFault::Server`]), or [`CommandFault::NoMemory`].
pub fn read_checked<S: FileStore + FolderStore>(
    alloc: Global,
    store: &mut S,
    config: &str,
) -> Result<CheckedServer, CommandFault>
    ensures { spec.FindsChecked S.gives_text S.gives_files config.now result store.old store.new }
{
    let server = read_server_file(alloc, store, config)?;
    let texts = read_contexts(alloc, store, config, server.contexts)?;
    let found = read_folders(alloc, store, config, texts)?;
    Ok(check_contexts(alloc, found)?)
}

/// Checks the contexts, each by itself, in order.
///
/// # Errors
/// `NoMemory` if memory runs out. A fault of a context is no error.
pub fn check_contexts(
    alloc: Global,
    contexts: Listed<FoundContext>,
) -> Result<CheckedServer, NoMemory>
    ensures { GivesAnswer result (spec.checked_server contexts) }
{
    let mut faults = Vec::new(alloc);
    let mut checked = Vec::new(alloc);
    for context in contexts.into_vec() {
        let context = check_context(alloc, context, &mut faults)?;
        checked.push(context)?;
    }
    Ok(CheckedServer {
        faults: Listed::from_vec(faults),
        contexts: Listed::from_vec(checked),
    })
}

// Checks a context, and adds its faults to the list.
fn check_context(
    alloc: Global,
    context: FoundContext,
    faults: &mut Vec<CommandFault>,
) -> Result<CheckedContext, NoMemory>
    ensures { IfOk result (λ checked. (faults.new.items ≡ faults.old.items ++ spec.context_faults context) × (checked ≡ spec.checked_context context)) }
{
    let FoundContext { texts, files } = context;
    let counts = check_files(alloc, &texts, files, faults)?;
    let path = Text::copy_of(alloc, texts.context.path.as_str())?;
    Ok(CheckedContext { path, counts })
}

// Counts what a context with these texts and files has, and adds its faults to the list.
fn check_files(
    alloc: Global,
    texts: &ContextTexts,
    files: FolderFiles,
    faults: &mut Vec<CommandFault>,
) -> Result<Option<ContextCounts>, NoMemory>
    ensures { IfOk result (λ counts. (faults.new.items ≡ faults.old.items ++ counted.faults_for texts.now files) × (counts ≡ counted.counts_for texts.now files)) }
{
    let app = take(faults, checked_app(alloc, texts))?;
    let users = take(faults, user_count(alloc, texts))?;
    let files = take(faults, file_counts(alloc, &texts.context, files))?;
    let app = take_classes(faults, app)?;
    Ok(joined(app, users, files))
}

// Returns the value of a step, or adds its fault to the list.
fn take<A: Drop>(
    faults: &mut Vec<CommandFault>,
    step: Result<A, CommandFault>,
) -> Result<Option<A>, NoMemory>
    ensures { IfOk result (λ value. (meant : Step A) → Gives command_fault step meant → counted.IsTaken meant value faults.old.items faults.new.items) }
{
    match step {
        Ok(value) => Ok(Some(value)),
        Err(fault) => {
            add_fault(faults, fault)?;
            Ok(None)
        }
    }
}

// Adds a fault to the list, unless it is that memory ran out.
fn add_fault(faults: &mut Vec<CommandFault>, fault: CommandFault) -> Result<(), NoMemory>
    ensures { IfOk result (λ _. counted.IsAdded (command_fault fault) faults.old.items faults.new.items) }
{
    if is_no_memory(&fault) {
        return Err(NoMemory);
    }
    faults.push(fault)?;
    Ok(())
}

// Returns whether memory ran out. No other fault has that exit status.
fn is_no_memory(fault: &CommandFault) -> bool
    ensures { counted.IsNoMemory fault.now result }
{
    fault.status() == 3
}

// What a descriptor has, and the fault of its classes.
#[derive(Drop)]
pub(crate) struct CheckedApp {
    counts: AppCounts,
    classes: Result<(), CommandFault>,
}

// How much of everything a descriptor has.
#[derive(Clone, Copy)]
pub(crate) struct AppCounts {
    servlets: usize,
    filters: usize,
    listeners: usize,
    constraints: usize,
}

// How many static files a context has, and how many bytes they have together.
#[derive(Clone, Copy)]
pub(crate) struct FileCounts {
    files: usize,
    bytes: usize,
}

// Reads the descriptor of a context, and creates its components, which are dropped.
fn checked_app(alloc: Global, texts: &ContextTexts) -> Result<CheckedApp, CommandFault>
    ensures { Gives command_fault result (counted.checked_app texts.now) }
{
    let descriptor = descriptor_in(alloc, texts)?;
    let classes = classes_in(alloc, texts, &descriptor);
    with_classes(app_counts(&descriptor), classes)
}

fn app_counts(descriptor: &Descriptor) -> AppCounts
    ensures { result ≡ counted.app_counts descriptor.now }
{
    let app = descriptor.web_app();
    AppCounts {
        servlets: app.servlets.as_slice().len(),
        filters: app.filters.as_slice().len(),
        listeners: app.listeners.as_slice().len(),
        constraints: app.constraints.as_slice().len(),
    }
}

// Creates the components of a descriptor, and drops them.
fn classes_in(
    alloc: Global,
    texts: &ContextTexts,
    descriptor: &Descriptor,
) -> Result<(), CommandFault>
    ensures { Gives command_fault result (counted.classes_in texts.now descriptor.now) }
{
    match parts_in(alloc, texts, descriptor) {
        Ok(_) => Ok(()),
        Err(fault) => Err(fault),
    }
}

// Puts a count and the classes together, unless memory ran out for the classes.
fn with_classes(
    counts: AppCounts,
    classes: Result<(), CommandFault>,
) -> Result<CheckedApp, CommandFault>
    ensures { (meant : Step (Unit {0})) → Gives command_fault classes meant → Gives command_fault result (Ok (record { counts = counts; classes = meant })) }
{
    if let Err(fault) = &classes {
        if is_no_memory(fault) {
            return Err(CommandFault::NoMemory);
        }
    }
    Ok(CheckedApp { counts, classes })
}

// Adds the fault of the classes to the list, if the descriptor has none itself.
fn take_classes(
    faults: &mut Vec<CommandFault>,
    app: Option<CheckedApp>,
) -> Result<Option<AppCounts>, NoMemory>
    ensures { IfOk result (λ counts. counted.AreTaken app counts faults.old.items faults.new.items) }
{
    let Some(CheckedApp { counts, classes }) = app else {
        return Ok(None);
    };
    match take(faults, classes)? {
        Some(()) => Ok(Some(counts)),
        None => Ok(None),
    }
}

// Reads the users of a context, and counts them.
fn user_count(alloc: Global, texts: &ContextTexts) -> Result<usize, CommandFault>
    ensures { Gives command_fault result (counted.user_count texts.now) }
{
    Ok(users_in(alloc, texts)?.len())
}

// Reads the static files of a context, and counts them.
fn file_counts(
    alloc: Global,
    context: &ContextEntry,
    files: FolderFiles,
) -> Result<FileCounts, CommandFault>
    ensures { Gives command_fault result (counted.file_counts context.now files) }
{
    let files = files_in(alloc, context, files)?;
    Ok(FileCounts {
        files: files.list().len(),
        bytes: total_bytes(files.list()),
    })
}

fn total_bytes(files: &[File]) -> usize
    requires { list_faults files.now ≡ [] }
    ensures { result ≡ spec.total_bytes files.now }
{
    let mut total = 0;
    for file in files {
        total += file.bytes.len();
    }
    total
}

// Returns what a context has, if all its parts could be read.
fn joined(
    app: Option<AppCounts>,
    users: Option<usize>,
    files: Option<FileCounts>,
) -> Option<ContextCounts>
    ensures { result ≡ counted.joined app users files }
{
    let app = app?;
    let users = users?;
    let files = files?;
    Some(ContextCounts {
        servlets: app.servlets,
        filters: app.filters,
        listeners: app.listeners,
        constraints: app.constraints,
        users,
        files: files.files,
        bytes: files.bytes,
    })
}

/// Contexts that can be deployed have no fault. Otherwise their first fault is the one with which
/// [`read_deployments`](crate::read_deployments) ends.
pub fn checks_find_what_a_start_finds()
    ensures { spec.FindsFirstFault }
{}
