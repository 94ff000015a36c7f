//! A dispatch and its paths.

ghost use Rattle.std.specs.Prelude.{◌≡◌, [], ◌++◌, None, OnOk, unwrap_or};
ghost use Rattle.std.specs.Option.{option_copied};
ghost use Rattle.sv_text.specs.Gives.{GivesAnswer};
ghost use Rattle.sv_exchange.specs.Dispatches.{is_include};
ghost use Rattle.sv_exchange.specs.Paths.{paths_at};

use crate::error::ToldError;
use crate::reused_texts::{no_text, set_text};
use std::alloc::Global;
use std::marker::Model;
use sv_mapping::Kind;
use sv_message::Rare;
use sv_text::{NoMemory, Text};

/// An active dispatch: its kind and its paths (Jakarta Servlet 6.0, chapter 9).
#[derive(Debug, Drop)]
pub struct Dispatch {
    pub kind: Kind,
    pub paths: Paths,
    /// The error that was kept when an error page began; `None` if there was none, and for other kinds.
    pub error: Rare<ToldError>,
}

/// The paths of a request or of a dispatch (Jakarta Servlet 6.0, section 3.5).
#[derive(Debug, Drop)]
pub struct Paths {
    // The context path with the path; `None` if the context path is empty.
    uri: Option<Text>,
    /// The canonical path in the context.
    pub path: Text,
    /// The part of the path that the servlet's pattern matches; `None` before a servlet is chosen.
    pub servlet_path: Option<Text>,
    /// The rest of the path after it; `None` if there is none.
    pub path_info: Option<Text>,
    /// The query; `None` if there is none.
    pub query: Option<Text>,
}

impl Model for Paths {
    ghost use Rattle.std.specs.Prelude.{unwrap_or};
    ghost use Rattle.sv_exchange.specs.Paths.{Paths};

    ghost Value = { Paths };

    ghost view = { λ paths. record {
      uri = unwrap_or paths.uri paths.path;
      path = paths.path;
      servlet_path = paths.servlet_path;
      path_info = paths.path_info;
      query = paths.query;
    } };
}

impl Paths {
    /// Returns empty paths. Takes no memory.
    pub(crate) fn empty(alloc: Global) -> Paths
        ensures { result ≡ paths_at [] [] None None None }
    {
        Paths {
            uri: None,
            path: no_text(alloc),
            servlet_path: None,
            path_info: None,
            query: None,
        }
    }

    /// Sets the paths to those of the texts. Unchanged texts are not copied, except for the URI outside of the root
    /// context, which is always built again.
    #[inline(always)]
    pub(crate) fn set(&mut self, alloc: Global, texts: &PathTexts<'_, '_>) -> Result<(), NoMemory>
        ensures { OnOk result (self.new ≡ texts.now) }
    {
        set_uri(alloc, &mut self.uri, texts.context_path, texts.path)?;
        set_text(alloc, &mut self.path, texts.path)?;
        set_option(alloc, &mut self.servlet_path, texts.servlet_path)?;
        set_option(alloc, &mut self.path_info, texts.path_info)?;
        set_option(alloc, &mut self.query, texts.query)
    }

    /// Returns the query; `None` if there is none.
    pub(crate) fn query(&self) -> &Option<Text>
        ensures { result.now ≡ self.now.query }
    {
        &self.query
    }

    /// Returns the context path with the path.
    pub fn uri(&self) -> &str
        ensures { result.now ≡ self.now.uri }
    {
        match &self.uri {
            Some(uri) => uri.as_str(),
            None => self.path.as_str(),
        }
    }
}

/// The texts from which paths are set, not copied yet. Contracts see the paths.
#[derive(Drop)]
pub(crate) struct PathTexts<'c, 'p> {
    pub context_path: &'c str,
    /// The canonical path in the context.
    pub path: &'p str,
    pub servlet_path: Option<&'p str>,
    pub path_info: Option<&'p str>,
    pub query: Option<&'p str>,
}

impl<'c, 'p> Model for PathTexts<'c, 'p> {
    ghost use Rattle.std.specs.Option.{option_copied};
    ghost use Rattle.sv_exchange.specs.Paths.{Paths, paths_at};

    ghost Value = { Paths };

    ghost view = { λ texts. paths_at texts.context_path.now texts.path.now (option_copied texts.servlet_path) (option_copied texts.path_info) (option_copied texts.query) };
}

impl Dispatch {
    /// Sets the kind, the paths and the error.
    #[inline(always)]
    pub(crate) fn set(
        &mut self,
        alloc: Global,
        kind: Kind,
        paths: &PathTexts<'_, '_>,
        error: Rare<ToldError>,
    ) -> Result<(), NoMemory>
        ensures { OnOk result (self.new ≡ record { kind = kind; paths = paths.now; error = error }) }
    {
        self.paths.set(alloc, paths)?;
        self.kind = kind;
        self.error = error;
        Ok(())
    }

    /// Returns whether the dispatch is an include.
    pub(crate) fn is_include(&self) -> bool
        ensures { result ≡ is_include self.now }
    {
        matches!(self.kind, Kind::Include)
    }
}

/// Copies an optional text.
#[inline(always)]
pub(crate) fn copied(alloc: Global, text: Option<&str>) -> Result<Option<Text>, NoMemory>
    ensures { GivesAnswer result (option_copied text.entry) }
{
    match text {
        Some(text) => Ok(Some(Text::copy_of(alloc, text)?)),
        None => Ok(None),
    }
}

/// Returns the text, if there is one.
pub(crate) fn shown(text: &Option<Text>) -> Option<&str>
    ensures { option_copied result ≡ text.now }
{
    match text {
        Some(text) => Some(text.as_str()),
        None => None,
    }
}

// Sets an optional text to the other one. Takes no memory if they are equal.
#[inline(always)]
fn set_option(alloc: Global, text: &mut Option<Text>, other: Option<&str>) -> Result<(), NoMemory>
    ensures { OnOk result (text.new ≡ option_copied other.entry) }
{
    let Some(other) = other else {
        *text = None;
        return Ok(());
    };
    if let Some(text) = text {
        return set_text(alloc, text, other);
    }
    *text = Some(Text::copy_of(alloc, other)?);
    Ok(())
}

// Sets the stored URI to that of a path in a context. In the root context the URI is the path, and nothing is stored.
#[inline(always)]
fn set_uri(
    alloc: Global,
    uri: &mut Option<Text>,
    context_path: &str,
    path: &str,
) -> Result<(), NoMemory>
    ensures { OnOk result (unwrap_or uri.new path.now ≡ context_path.now ++ path.now) }
{
    *uri = if context_path.is_empty() {
        None
    } else {
        Some(joined(alloc, context_path, path)?)
    };
    Ok(())
}

// Concatenates two texts.
fn joined(alloc: Global, front: &str, back: &str) -> Result<Text, NoMemory>
    ensures { GivesAnswer result (front.now ++ back.now) }
{
    let mut text = Text::with_room(alloc, front.len() + back.len())?;
    text.push_str(alloc, front)?;
    text.push_str(alloc, back)?;
    Ok(text)
}
