//! A context, from the texts of its files.

ghost use Rattle.sv_text.specs.Gives.{Gives, GivesAnswer};
ghost use Rattle.sv_program.specs.CommandFault.{command_fault};
ghost use Rattle.sv_program.specs.Configuration.{each};
ghost use Rattle.sv_audited_contexts.specs.Audited as spec;

use crate::context_files::{ContextFiles, files_in};
use crate::descriptor_lines::{SourceLines, source_lines};
use crate::held::held_in;
use crate::mapped_patterns::servlet_patterns;
use std::alloc::Global;
use sv_audit::without_transport;
use sv_constraints::{Constraint, Rules};
use sv_deployments::FoundContext;
use sv_descriptor::{Descriptor, ServletMapping, WebApp};
use sv_findings::Surroundings;
use sv_policy::copied_constraints;
use sv_program::{CommandFault, ContextTexts, FileText, descriptor_in, realm_in};
use sv_realm::Realm;
use sv_text::{Listed, NoMemory, Text, copied_texts};

/// What the files of a context say about access to it.
#[derive(Drop)]
pub struct AuditedContext {
    /// The descriptor.
    pub source: Source,
    /// Whether the descriptor has a login configuration.
    pub has_login: bool,
    /// The constraints, as a request meets them over the connection that is asked for.
    pub constraints: Listed<Constraint>,
    /// The rules of the constraints.
    pub rules: Rules,
    /// The URL patterns of the servlets.
    pub mappings: Listed<ServletMapping>,
    /// The users.
    pub realm: Realm,
    /// The descriptor, if it is kept.
    pub descriptor: Option<Descriptor>,
    /// What surrounds the constraints.
    pub surroundings: Surroundings,
}

/// How contexts are read.
#[derive(Clone, Copy)]
pub struct ContextOptions {
    /// Whether requests arrive over a connection whose transport is guaranteed.
    pub is_secure: bool,
    /// Whether the descriptors are kept.
    pub keeps_descriptor: bool,
    /// Whether contexts without a folder may have files that are not known. If not, they have no files.
    pub has_unknown_files: bool,
}

/// A descriptor, and the context that it describes.
#[derive(Drop)]
pub struct Source {
    /// The context path.
    pub path: Text,
    /// The name of the descriptor.
    pub file: Text,
    /// The lines on which its constraints and roles begin, as far as they are known.
    pub lines: SourceLines,
}

/// Reads the contexts from the texts of their files. Transport requirements are dropped if requests arrive over a
/// connection whose transport is guaranteed. Descriptors are kept if they are asked for.
///
/// # Errors
/// The first fault, of the descriptor, then of the users and then of the folder of each context, in order:
/// [`CommandFault::File`], [`CommandFault::Descriptor`], [`CommandFault::Users`] or [`CommandFault::Folder`]. Or
/// [`CommandFault::NoMemory`].
pub fn audited_contexts(
    alloc: Global,
    found: &[FoundContext],
    options: ContextOptions,
) -> Result<Listed<AuditedContext>, CommandFault>
    ensures { Gives command_fault result (spec.audited_contexts options found.now) }
{
    let paths = paths_of(alloc, found)?;
    contexts_beside(alloc, found, paths.as_slice(), options)
}

/// Copies the paths of contexts, in order.
fn paths_of(alloc: Global, found: &[FoundContext]) -> Result<Listed<Text>, NoMemory>
    ensures { GivesAnswer result (spec.paths_of found.now) }
{
    let mut paths = Vec::with_capacity(alloc, found.len())?;
    for found in found {
        paths.push(Text::copy_of(alloc, found.texts.context.path.as_str())?)?;
    }
    Ok(Listed::from_vec(paths))
}

/// Reads the contexts, given the paths of all contexts.
fn contexts_beside(
    alloc: Global,
    found: &[FoundContext],
    paths: &[Text],
    options: ContextOptions,
) -> Result<Listed<AuditedContext>, CommandFault>
    ensures { Gives command_fault result (each (spec.audited_context options paths.now) found.now) }
{
    let mut contexts = Vec::new(alloc);
    for found in found {
        let context = audited_context(alloc, found, paths, options)?;
        contexts.push(context)?;
    }
    Ok(Listed::from_vec(contexts))
}

fn audited_context(
    alloc: Global,
    found: &FoundContext,
    paths: &[Text],
    options: ContextOptions,
) -> Result<AuditedContext, CommandFault>
    ensures { Gives command_fault result (spec.audited_context options paths.now found.now) }
{
    let web_app = descriptor_in(alloc, &found.texts)?.into_web_app();
    let parts = context_parts(alloc, found, &web_app, options)?;
    Ok(context_of(
        alloc,
        &found.texts,
        web_app,
        parts,
        paths,
        options.is_secure,
    )?)
}

/// The parts of a context besides its constraints: the descriptor if it is kept, the users, and what its findings need.
#[derive(Drop)]
pub struct ContextParts {
    descriptor: Option<Descriptor>,
    realm: Realm,
    findings: FindingParts,
}

/// What the findings of a context need besides its descriptor: the roles of the users, the static files, and the
/// constraints with their transport requirements if these are dropped.
#[derive(Drop)]
pub struct FindingParts {
    held: Option<Listed<Text>>,
    files: ContextFiles,
    with_transport: Option<Listed<Constraint>>,
}

/// Reads the parts of a context with this descriptor.
fn context_parts(
    alloc: Global,
    found: &FoundContext,
    web_app: &WebApp,
    options: ContextOptions,
) -> Result<ContextParts, CommandFault>
    ensures { Gives command_fault result (spec.context_parts options found.now web_app.now) }
{
    let descriptor = kept_descriptor(alloc, &found.texts, options.keeps_descriptor)?;
    let realm = realm_in(alloc, &found.texts)?;
    let findings = finding_parts(alloc, found, web_app, &realm, options)?;
    Ok(ContextParts {
        descriptor,
        realm,
        findings,
    })
}

/// Reads what the findings of a context need besides this descriptor, given its users.
fn finding_parts(
    alloc: Global,
    found: &FoundContext,
    web_app: &WebApp,
    realm: &Realm,
    options: ContextOptions,
) -> Result<FindingParts, CommandFault>
    ensures { Gives command_fault result (spec.finding_parts options found.now web_app.now realm.now) }
{
    let held = held_in(alloc, &found.texts.context.users, realm)?;
    let name = found.texts.context.files.as_str();
    let files = files_in(
        alloc,
        options.has_unknown_files,
        name,
        &found.files,
        &web_app.login,
    )?;
    let constraints = web_app.constraints.as_slice();
    let with_transport = kept_transport(alloc, options.is_secure, constraints)?;
    Ok(FindingParts {
        held,
        files,
        with_transport,
    })
}

/// Copies the constraints of a descriptor, if their transport requirements are dropped.
fn kept_transport(
    alloc: Global,
    is_secure: bool,
    constraints: &[Constraint],
) -> Result<Option<Listed<Constraint>>, NoMemory>
    ensures { GivesAnswer result (spec.kept_transport is_secure constraints.now) }
{
    if is_secure {
        let copies = copied_constraints(alloc, constraints)?;
        Ok(Some(Listed::from_vec(copies)))
    } else {
        Ok(None)
    }
}

/// Reads the descriptor, if it is kept. It is read a second time, since its constraints are taken out of the first
/// one.
fn kept_descriptor(
    alloc: Global,
    texts: &ContextTexts,
    keeps: bool,
) -> Result<Option<Descriptor>, CommandFault>
    ensures { Gives command_fault result (spec.kept_descriptor keeps texts.now) }
{
    if keeps {
        Ok(Some(descriptor_in(alloc, texts)?))
    } else {
        Ok(None)
    }
}

/// Returns the context with this descriptor and these parts.
fn context_of(
    alloc: Global,
    texts: &ContextTexts,
    web_app: WebApp,
    parts: ContextParts,
    paths: &[Text],
    is_secure: bool,
) -> Result<AuditedContext, NoMemory>
    ensures { GivesAnswer result (spec.context_of is_secure (spec.source_of texts.now) web_app parts (spec.surroundings_of paths.now texts.now web_app parts.findings)) }
{
    let source = source_of(alloc, texts)?;
    let surroundings = surroundings_of(alloc, texts, &web_app, parts.findings, paths)?;
    let has_login = web_app.login.is_some();
    let constraints = constraints_over(alloc, is_secure, web_app.constraints)?;
    Ok(AuditedContext {
        source,
        has_login,
        constraints,
        rules: web_app.rules,
        mappings: web_app.servlet_mappings,
        realm: parts.realm,
        descriptor: parts.descriptor,
        surroundings,
    })
}

/// Returns what surrounds the constraints of a context with this descriptor, given the paths of all contexts.
fn surroundings_of(
    alloc: Global,
    texts: &ContextTexts,
    web_app: &WebApp,
    parts: FindingParts,
    paths: &[Text],
) -> Result<Surroundings, NoMemory>
    ensures { GivesAnswer result (spec.surroundings_of paths.now texts.now web_app.now parts) }
{
    let place = place_of(alloc, texts, web_app, paths)?;
    Ok(Surroundings {
        contexts: place.contexts,
        path: place.path,
        has_login: web_app.login.is_some(),
        held: parts.held,
        servlets: place.servlets,
        files: parts.files.paths,
        login_page: parts.files.login_page,
        with_transport: parts.with_transport,
    })
}

/// The paths of all contexts, that of one of them, and the patterns of its servlets.
#[derive(Drop)]
pub struct ContextPlace {
    contexts: Listed<Text>,
    path: Text,
    servlets: Listed<Text>,
}

fn place_of(
    alloc: Global,
    texts: &ContextTexts,
    web_app: &WebApp,
    paths: &[Text],
) -> Result<ContextPlace, NoMemory>
    ensures { GivesAnswer result (spec.place_of paths.now texts.now web_app.now) }
{
    Ok(ContextPlace {
        contexts: copied_texts(alloc, paths)?,
        path: Text::copy_of(alloc, texts.context.path.as_str())?,
        servlets: servlet_patterns(alloc, web_app.servlet_mappings.as_slice())?,
    })
}

/// Returns the constraints as a request meets them that arrives over such a connection.
pub fn constraints_over(
    alloc: Global,
    is_secure: bool,
    constraints: Listed<Constraint>,
) -> Result<Listed<Constraint>, NoMemory>
    ensures { GivesAnswer result (spec.constraints_over is_secure constraints) }
{
    if is_secure {
        without_transport(alloc, constraints)
    } else {
        Ok(constraints)
    }
}

fn source_of(alloc: Global, texts: &ContextTexts) -> Result<Source, NoMemory>
    ensures { GivesAnswer result (spec.source_of texts.now) }
{
    Ok(Source {
        path: Text::copy_of(alloc, texts.context.path.as_str())?,
        file: Text::copy_of(alloc, texts.context.descriptor.as_str())?,
        lines: lines_in(alloc, &texts.descriptor)?,
    })
}

fn lines_in(alloc: Global, file: &FileText) -> Result<SourceLines, NoMemory>
    ensures { GivesAnswer result (spec.lines_in file.now) }
{
    match file {
        Ok(text) => source_lines(alloc, text.as_str()),
        Err(_) => Ok(SourceLines::unknown(alloc)),
    }
}
