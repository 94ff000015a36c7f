//! The folders against which a browser resolves the relative references of the login page.

ghost use Rattle.std.specs.Prelude.{◌≡◌, ◌++◌, ◌∷◌, [], IfOk, OnOk, if◌then◌else◌, length, map, nat_lt, take};
ghost use Rattle.std.specs.List.{flat_map, list_any};
ghost use Rattle.sv_mapping.specs.Form.{form_seen};
ghost use Rattle.sv_mapping.specs.Pattern.{form};
ghost use Rattle.sv_mapping.specs.Protected as protected;
ghost use Rattle.sv_policy.specs.Patterns.{different, kept_once};
ghost use Rattle.sv_findings.specs.LoginNeeds as spec;

use crate::heads::covers_method;
use crate::role_findings::push_once;
use std::alloc::Global;
use sv_audit::{Group, Row, form_of, needs_login};
use sv_mapping::{Form, is_protected};
use sv_text::{NoMemory, Text};

/// A relative reference is resolved against at most so many folders in which a browser may have asked for a path that
/// needs a login.
pub const MAX_ASKED_FOLDERS: usize = 200;

/// Returns the folders of the rows at which a GET without a caller leads to a login, each once, and at most
/// [`MAX_ASKED_FOLDERS`]. There are none without a login configuration.
///
/// # Errors
/// `NoMemory` if memory runs out.
pub fn asked_folders<'a>(
    alloc: Global,
    has_login: bool,
    met: &[&'a Row],
) -> Result<Vec<&'a str>, NoMemory>
    ensures { IfOk result (λ folders. map (λ folder. folder.now) folders.items ≡ spec.asked_folders has_login (map (λ row. row.now) met.now)) }
{
    if !has_login {
        return Ok(Vec::new(alloc));
    }
    let folders = folders_of_rows(alloc, met)?;
    first_folders(alloc, folders.as_slice())
}

fn folders_of_rows<'a>(alloc: Global, met: &[&'a Row]) -> Result<Vec<&'a str>, NoMemory>
    ensures { IfOk result (λ folders. map (λ folder. folder.now) folders.items ≡ flat_map (λ row. spec.asked_at row.pattern row.groups) (map (λ row. row.now) met.now)) }
{
    let mut folders = Vec::new(alloc);
    for row in met {
        push_asked(&mut folders, &row.pattern, row.groups.as_slice())?;
    }
    Ok(folders)
}

/// Appends the folder of a row at which a GET without a caller needs a login.
fn push_asked<'a>(
    folders: &mut Vec<&'a str>,
    pattern: &'a Option<Text>,
    groups: &[Group],
) -> Result<(), NoMemory>
    ensures { OnOk result (map (λ folder. folder.now) folders.new.items ≡ map (λ folder. folder.now) folders.old.items ++ spec.asked_at pattern.now groups.now) }
{
    let Some(pattern) = pattern else {
        return Ok(());
    };
    if are_asked(groups) {
        folders.push(folder_of_form(form_of(pattern.as_str())))?;
    }
    Ok(())
}

fn are_asked(groups: &[Group]) -> bool
    ensures { result ≡ list_any spec.is_asked groups.now }
{
    groups.iter().any(is_asked)
}

fn is_asked(group: &Group) -> bool
    ensures { result ≡ spec.is_asked group.now }
{
    covers_method(&group.methods, "GET") && needs_login(&group.cell.access)
}

/// Returns the first [`MAX_ASKED_FOLDERS`] different folders.
fn first_folders<'a>(alloc: Global, folders: &[&'a str]) -> Result<Vec<&'a str>, NoMemory>
    ensures { IfOk result (λ kept. map (λ folder. folder.now) kept.items ≡ take MAX_ASKED_FOLDERS (different (map (λ folder. folder.now) folders.now))) }
{
    let mut kept = Vec::new(alloc);
    for folder in folders {
        push_few(&mut kept, *folder)?;
    }
    Ok(kept)
}

/// Appends a folder, unless it is among the folders, or there are too many.
fn push_few<'a>(kept: &mut Vec<&'a str>, folder: &'a str) -> Result<(), NoMemory>
    ensures { OnOk result (map (λ one. one.now) kept.new.items ≡ (if nat_lt (length kept.old.items) MAX_ASKED_FOLDERS
        then kept_once (map (λ one. one.now) kept.old.items) folder.now else map (λ one. one.now) kept.old.items)) }
{
    if kept.len() < MAX_ASKED_FOLDERS {
        push_once(kept, folder)?;
    }
    Ok(())
}

/// Returns the folders against which a browser resolves a relative reference of the page with this path: that of the
/// page, unless it is hidden, and those in which it may have asked for a path that needs a login.
pub fn base_folders<'a>(
    alloc: Global,
    page: &'a str,
    asked: &[&'a str],
) -> Result<Vec<&'a str>, NoMemory>
    ensures { IfOk result (λ folders. map (λ folder. folder.now) folders.items ≡ spec.base_folders page.now (map (λ folder. folder.now) asked.now)) }
{
    let mut folders = Vec::new(alloc);
    push_own(&mut folders, page)?;
    for folder in asked {
        folders.push(*folder)?;
    }
    Ok(folders)
}

/// Appends the folder of a page, unless it is hidden.
fn push_own<'a>(folders: &mut Vec<&'a str>, page: &'a str) -> Result<(), NoMemory>
    ensures { OnOk result (map (λ folder. folder.now) folders.new.items ≡ map (λ folder. folder.now) folders.old.items
        ++ (if protected.is_protected page.now then [] else spec.folder_of page.now ∷ [])) }
{
    if !is_protected(page) {
        folders.push(folder_of(page))?;
    }
    Ok(())
}

/// Returns the folder of the paths of a pattern with this form. Of patterns that match paths in many folders it is the
/// topmost one.
fn folder_of_form<'a>(form: Form<'a>) -> &'a str
    ensures { result.now ≡ spec.folder_of_form (form_seen form.entry) }
{
    match form {
        Form::Root => "",
        Form::Default => "",
        Form::Extension(_) => "",
        Form::Prefix(prefix) => prefix,
        Form::Exact(text) => folder_of(text),
    }
}

/// Returns the folder of a path, without the slash at its end.
fn folder_of(path: &str) -> &str
    ensures { result.now ≡ spec.folder_of path.now }
{
    match path.rsplit_once('/') {
        Some((folder, _)) => folder,
        None => "",
    }
}
