//! What the login page refers to, and a request without a caller may not get.

ghost use Rattle.std.specs.Prelude.{◌≡◌, ◌++◌, ◌∷◌, [], IfOk, OnOk, map, codes, if◌then◌else◌};
ghost use Rattle.std.specs.List.{before_first, list_any, slice_split};
ghost use Rattle.std.specs.Option.{option_to_list};
ghost use Rattle.std.specs.Str.{str_eq_ignore_ascii_case};
ghost use Rattle.sv_policy.specs.Patterns.{different};
ghost use Rattle.sv_text.specs.Gives.{GivesAnswer};
ghost use Rattle.sv_findings.specs.LoginNeeds as spec;
ghost use Rattle.sv_findings.specs.declared.finding.Finding.TheVariants as finding;

use crate::asked_folders::{asked_folders, base_folders};
use crate::finding::Finding;
use crate::guarded_context::GuardedContext;
use crate::role_findings::push_once;
use crate::surroundings::LoginPage;
use std::alloc::Global;
use sv_audit::Row;
use sv_mapping::extension;
use sv_text::{NoMemory, Text};

/// The endings of style sheets, scripts, pictures and fonts.
const LOADED_ENDINGS: [&str; 11] = [
    "css", "js", "png", "jpg", "jpeg", "gif", "svg", "ico", "webp", "woff", "woff2",
];

/// Appends the paths within the context of style sheets, scripts, pictures and fonts that the login page refers to, and
/// that a request without a caller may not get, each once. A relative reference is resolved against the folder of the
/// page and, if that gives no such path, against the folders of the met rows at which a GET without a caller leads to a
/// login: the page is the answer there, by a forward. Paths in hidden folders are left out: nobody may get them.
///
/// # Errors
/// `NoMemory` if memory runs out.
pub fn push_login_needs(
    findings: &mut Vec<Finding>,
    alloc: Global,
    context: &GuardedContext<'_, '_>,
    has_login: bool,
    met: &[&Row],
    page: &Option<LoginPage>,
) -> Result<(), NoMemory>
    ensures { OnOk result (findings.new.items ≡ findings.old.items
        ++ spec.login_needs context.now.reaches.now.0 context.now.reaches.now.1 context.now.constraints.now context.now.rules.now has_login (map (λ row. row.now) met.now) page.now) }
{
    let Some(page) = page else {
        return Ok(());
    };
    let asked = asked_folders(alloc, has_login, met)?;
    push_needs_of(findings, alloc, context, asked.as_slice(), page)
}

/// Appends what a page needs, given the folders in which it may be the answer to a request for another path.
fn push_needs_of(
    findings: &mut Vec<Finding>,
    alloc: Global,
    context: &GuardedContext<'_, '_>,
    asked: &[&str],
    page: &LoginPage,
) -> Result<(), NoMemory>
    ensures { OnOk result (findings.new.items ≡ findings.old.items
        ++ spec.needs_of context.now.reaches.now.0 context.now.reaches.now.1 context.now.constraints.now context.now.rules.now (map (λ folder. folder.now) asked.now) page.now) }
{
    let folders = base_folders(alloc, page.path.as_str(), asked)?;
    let needed = needed_paths(alloc, context, folders.as_slice(), page.text.as_str())?;
    push_needed(findings, alloc, needed.as_slice())
}

fn push_needed(findings: &mut Vec<Finding>, alloc: Global, needed: &[Text]) -> Result<(), NoMemory>
    ensures { OnOk result (findings.new.items ≡ findings.old.items ++ map finding.LoginNeeds (different needed.now)) }
{
    for path in once_each(alloc, needed)?.as_slice() {
        findings.push(Finding::LoginNeeds(Text::copy_of(alloc, *path)?))?;
    }
    Ok(())
}

fn once_each<'a>(alloc: Global, texts: &'a [Text]) -> Result<Vec<&'a str>, NoMemory>
    ensures { IfOk result (λ kept. map (λ text. text.now) kept.items ≡ different texts.now) }
{
    let mut kept = Vec::new(alloc);
    for text in texts {
        push_once(&mut kept, text.as_str())?;
    }
    Ok(kept)
}

/// Returns the paths that the references of a page need in these folders.
fn needed_paths(
    alloc: Global,
    context: &GuardedContext<'_, '_>,
    folders: &[&str],
    text: &str,
) -> Result<Vec<Text>, NoMemory>
    ensures { IfOk result (λ paths. paths.items
        ≡ spec.needed_paths context.now.reaches.now.0 context.now.reaches.now.1 context.now.constraints.now context.now.rules.now (map (λ folder. folder.now) folders.now) text.now) }
{
    let parts = parts(alloc, text)?;
    let references = references(alloc, parts.as_slice())?;
    let mut paths = Vec::new(alloc);
    for reference in references.as_slice() {
        if is_loaded(reference) {
            push_needed_by(&mut paths, alloc, context, folders, reference)?;
        }
    }
    Ok(paths)
}

/// Appends the path that a reference needs, if there is one.
fn push_needed_by(
    paths: &mut Vec<Text>,
    alloc: Global,
    context: &GuardedContext<'_, '_>,
    folders: &[&str],
    reference: &str,
) -> Result<(), NoMemory>
    ensures { OnOk result (paths.new.items ≡ paths.old.items
        ++ option_to_list (spec.needed_by context.now.reaches.now.0 context.now.reaches.now.1 context.now.constraints.now context.now.rules.now (map (λ folder. folder.now) folders.now) reference.now)) }
{
    if let Some(path) = needed_by(alloc, context, folders, reference)? {
        paths.push(path)?;
    }
    Ok(())
}

/// Returns the path that a reference needs: a relative one in the first of the folders in which a request without a
/// caller may not get it.
fn needed_by(
    alloc: Global,
    context: &GuardedContext<'_, '_>,
    folders: &[&str],
    reference: &str,
) -> Result<Option<Text>, NoMemory>
    ensures { GivesAnswer result (spec.needed_by context.now.reaches.now.0 context.now.reaches.now.1 context.now.constraints.now context.now.rules.now (map (λ folder. folder.now) folders.now) reference.now) }
{
    if is_absolute(reference) {
        context.needed_at(alloc, path_part(reference))
    } else {
        first_needed(alloc, context, folders, path_part(reference))
    }
}

/// Returns whether the reference has the path of a target.
fn is_absolute(reference: &str) -> bool
    ensures { result ≡ spec.is_absolute reference.now }
{
    reference.as_bytes().starts_with(b"/")
}

/// Returns the path of a relative reference in the first of the folders in which a request without a caller may not get
/// it.
fn first_needed(
    alloc: Global,
    context: &GuardedContext<'_, '_>,
    folders: &[&str],
    relative: &str,
) -> Result<Option<Text>, NoMemory>
    ensures { GivesAnswer result (spec.first_given (λ folder. spec.needed_at context.now.reaches.now.0 context.now.reaches.now.1 context.now.constraints.now context.now.rules.now
        (spec.target_in context.now.reaches.now.1 folder relative.now)) (map (λ folder. folder.now) folders.now)) }
{
    for folder in folders {
        if let Some(path) = context.needed_in(alloc, *folder, relative)? {
            return Ok(Some(path));
        }
    }
    Ok(None)
}

/// Cuts a text at its quotation marks.
fn parts(alloc: Global, text: &str) -> Result<Vec<&str>, NoMemory>
    ensures { IfOk result (λ parts. map (λ part. part.now) parts.items ≡ spec.parts text.now) }
{
    let mut parts = Vec::new(alloc);
    for piece in pieces(alloc, text)?.as_slice() {
        push_pieces(&mut parts, alloc, *piece)?;
    }
    Ok(parts)
}

fn pieces(alloc: Global, text: &str) -> Result<Vec<&str>, NoMemory>
    ensures { IfOk result (λ parts. map (λ part. part.now) parts.items ≡ slice_split spec.is_double text.now) }
{
    Ok(text.split('"').collect(alloc)?)
}

fn push_pieces<'a>(parts: &mut Vec<&'a str>, alloc: Global, text: &'a str) -> Result<(), NoMemory>
    ensures { OnOk result (map (λ part. part.now) parts.new.items ≡ map (λ part. part.now) parts.old.items ++ slice_split spec.is_single text.now) }
{
    for piece in smaller_pieces(alloc, text)?.as_slice() {
        parts.push(*piece)?;
    }
    Ok(())
}

fn smaller_pieces(alloc: Global, text: &str) -> Result<Vec<&str>, NoMemory>
    ensures { IfOk result (λ parts. map (λ part. part.now) parts.items ≡ slice_split spec.is_single text.now) }
{
    Ok(text.split('\'').collect(alloc)?)
}

/// Returns the parts that follow the start of a reference.
fn references<'a>(alloc: Global, parts: &[&'a str]) -> Result<Vec<&'a str>, NoMemory>
    ensures { IfOk result (λ found. map (λ part. part.now) found.items ≡ spec.references_after [] (map (λ part. part.now) parts.now)) }
{
    let mut found = Vec::new(alloc);
    let mut before = "".as_bytes();
    for part in parts {
        push_reference(&mut found, before, *part)?;
        before = part.as_bytes();
    }
    Ok(found)
}

fn push_reference<'a>(
    found: &mut Vec<&'a str>,
    before: &[u8],
    part: &'a str,
) -> Result<(), NoMemory>
    ensures { OnOk result (map (λ part. part.now) found.new.items ≡ map (λ part. part.now) found.old.items ++ spec.reference_if before.now part.now) }
{
    if before.ends_with(b"src=") || before.ends_with(b"href=") {
        found.push(part)?;
    }
    Ok(())
}

/// Returns whether the reference is to a style sheet, a script, a picture or a font of this server.
fn is_loaded(reference: &str) -> bool
    ensures { result ≡ spec.is_loaded reference.now }
{
    is_own(reference) && !is_template(reference) && has_loaded_ending(path_part(reference))
}

/// Returns whether the reference is to this server: it has no scheme and no authority.
fn is_own(reference: &str) -> bool
    ensures { result ≡ spec.is_own reference.now }
{
    !reference.as_bytes().starts_with(b"//") && !reference.as_bytes().contains(&b':')
}

/// Returns whether the reference has a part that is put in when the page is made.
fn is_template(reference: &str) -> bool
    ensures { result ≡ spec.is_template reference.now }
{
    reference.as_bytes().contains(&b'<') || reference.as_bytes().contains(&b'{')
}

fn has_loaded_ending(path: &str) -> bool
    ensures { result ≡ spec.has_loaded_ending path.now }
{
    match extension(path) {
        Some(found) => is_loaded_ending(found),
        None => false,
    }
}

fn is_loaded_ending(found: &str) -> bool
    ensures { result ≡ spec.is_loaded_ending found.now }
{
    is_one_of(&LOADED_ENDINGS, found)
}

/// Returns whether the text is one of the texts, without regard to case.
fn is_one_of(texts: &[&str], found: &str) -> bool
    ensures { result ≡ list_any (λ text. str_eq_ignore_ascii_case found.now text.now) texts.now }
{
    texts.iter().any(|text| found.eq_ignore_ascii_case(text))
}

/// Returns the reference without its query and its fragment.
fn path_part(reference: &str) -> &str
    ensures { result.now ≡ spec.path_part reference.now }
{
    before_question(before_hash(reference))
}

fn before_hash(text: &str) -> &str
    ensures { result.now ≡ before_first spec.is_hash text.now }
{
    match text.split_once('#') {
        Some((front, _)) => front,
        None => text,
    }
}

fn before_question(text: &str) -> &str
    ensures { result.now ≡ before_first spec.is_question text.now }
{
    match text.split_once('?') {
        Some((front, _)) => front,
        None => text,
    }
}
