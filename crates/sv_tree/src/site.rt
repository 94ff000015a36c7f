//! The site of a context.

ghost use Rattle.std.specs.List.{All};
ghost use Rattle.std.specs.Option.{option_copied};
ghost use Rattle.std.specs.Prelude.{IfOk, IsTrue, Ok, [], length, slice_index_or, ◌<◌, ◌≡◌};
ghost use Rattle.sv_descriptor.specs.Agreement.{servlet_names};
ghost use Rattle.sv_descriptor.specs.Location.{is_location};
ghost use Rattle.sv_descriptor.specs.WellFormed.{IsWellFormed};
ghost use Rattle.sv_text.specs.Gives.{GivesAnswer};
ghost use Rattle.sv_tree.specs.Seen.{IsThere, chosen_seen, found_seen};
ghost use Rattle.sv_tree.specs.ServletMappings.{mappings_of};
ghost use Rattle.sv_tree.specs.Site as tree;
ghost use Rattle.sv_tree.specs.SiteOfDescriptor.{Content, site_of};
ghost use Rattle.sv_uri.specs.Canonical.{canonical};

use crate::file_found::{FileFound, answered};
use crate::servlet_patterns::ServletPatterns;
use std::alloc::Global;
use std::marker::Model;
use sv_chain::{Chain, Chains};
use sv_descriptor::{Descriptor, Kind};
use sv_error_pages::page_for;
use sv_files::Files;
use sv_text::{NoMemory, Text};
use sv_uri::canon;
use sv_uri::fault::CanonFault;
use sv_uri::path::Canon;

/// The site of a context: its path, descriptor and files, with compiled patterns and filter chains. Contracts see the
/// path, the descriptor and the files; `site_of` turns them into the site of the dispatch model.
#[derive(Drop)]
pub struct Site {
    context_path: Text,
    descriptor: Descriptor,
    files: Files,
    patterns: ServletPatterns,
    chains: Chains,
}

impl Model for Site {
    ghost use Rattle.std.specs.Prelude.{◌≡◌};
    ghost use Rattle.sv_descriptor.specs.WellFormed.{IsWellFormed};
    ghost use Rattle.sv_tree.specs.ServletMappings.{mappings_of};
    ghost use Rattle.sv_tree.specs.SiteOfDescriptor.{Content};

    ghost Value = { Content };

    ghost view = { λ site. record { context_path = site.context_path; app = site.descriptor; files = site.files } };

    ghost invariant = { λ site. (site.patterns ≡ mappings_of site.descriptor) × (site.chains ≡ site.descriptor) × IsWellFormed site.descriptor };
}

impl Site {
    /// Creates a site from its parts, without allocating. The context's path is empty for the root context. The
    /// patterns come from `ServletPatterns::of` and the chains from `Chains::compile`, both for this descriptor.
    pub fn new(
        context_path: Text,
        descriptor: Descriptor,
        files: Files,
        patterns: ServletPatterns,
        chains: Chains,
    ) -> Site
        requires patterns { patterns ≡ mappings_of descriptor }
        requires chains { chains ≡ descriptor }
        requires well_formed { IsWellFormed descriptor }
        ensures { result ≡ record { context_path = context_path; app = descriptor; files = files } }
    {
        Site {
            context_path,
            descriptor,
            files,
            patterns,
            chains,
        }
    }

    /// Returns the context's path, descriptor and files, without allocating.
    pub fn into_parts(self) -> (Text, Descriptor, Files)
        ensures { record { context_path = result.0; app = result.1; files = result.2 } ≡ self }
    {
        let Site {
            context_path,
            descriptor,
            files,
            ..
        } = self;
        (context_path, descriptor, files)
    }

    /// Returns the context's path, which is empty for the root context.
    pub fn context_path(&self) -> &str
        ensures { result.now ≡ self.now.context_path }
    {
        self.context_path.as_str()
    }

    /// Returns the descriptor.
    pub fn descriptor(&self) -> &Descriptor
        ensures value { result.now ≡ self.now.app }
        ensures well_formed { IsWellFormed self.now.app }
    {
        &self.descriptor
    }

    /// Returns the resource for a path within the context: the servlet whose pattern matches best, or the file servlet
    /// if none matches (Jakarta Servlet 6.0, section 12.1). It allocates nothing, and its cost does not grow with the
    /// number of patterns.
    pub fn chosen<'a>(&self, path: &'a str) -> Chosen<'a>
        ensures chosen { chosen_seen result ≡ tree.chosen (site_of self.now) path.now }
        ensures declared { IsThere (site_of self.now) result.resource }
    {
        self.patterns.chosen(path)
    }

    /// Returns the name of a resource: that of the servlet, or `default` for the file servlet.
    pub fn name_of(&self, resource: Resource) -> &str
        ensures { result.now ≡ tree.name_of (site_of self.now) resource }
    {
        name_in(&self.descriptor, resource)
    }

    /// Returns the indices of the filters that a dispatch of this kind to the path passes (section 6.2.4). Chains are
    /// cached, but contracts do not see the cache.
    ///
    /// # Errors
    /// `NoMemory` if an allocation that the chain needs fails.
    pub fn chain(
        &mut self,
        alloc: Global,
        path: &str,
        resource: Resource,
        kind: Kind,
    ) -> Result<Chain, NoMemory>
        ensures chain { IfOk result (λ chain. chain ≡ (site_of self.old).chain path.now (tree.name_of (site_of self.old) resource) kind) }
        ensures places { IfOk result (λ chain. All (λ place. place < length self.old.app.filters) chain) }
        ensures stays { self.new ≡ self.old }
    {
        let descriptor = &self.descriptor;
        let name = name_in(descriptor, resource);
        self.chains.of(alloc, descriptor, path, name, kind)
    }

    /// Returns the file servlet's result for a path with its query in a dispatch of this kind (sections 10.10 and
    /// 12.2). The cost does not grow with the number of files, and the bytes of a file are not copied.
    ///
    /// # Errors
    /// `NoMemory` if an allocation fails.
    pub fn file<'a>(
        &'a self,
        alloc: Global,
        canon: &Canon,
        method: &str,
        kind: Kind,
    ) -> Result<FileFound<'a>, NoMemory>
        ensures { IfOk result (λ found. found_seen found ≡ (site_of self.now).file canon.now method.now kind) }
    {
        let path = canon.path.as_str();
        let welcome = self.descriptor.web_app().welcome_files.as_slice();
        let patterns = self.patterns.patterns();
        let answer = self
            .files
            .answer(alloc, path, method, kind, welcome, patterns)?;
        answered(alloc, self.context_path.as_str(), canon, &answer)
    }

    /// Returns the error page for a status and, for a failure, its kind (section 10.9.2). The page is given as the path
    /// and the query of its location.
    ///
    /// # Errors
    /// `NoMemory` if an allocation fails.
    pub fn page(
        &self,
        alloc: Global,
        status: u16,
        kind: Option<&str>,
    ) -> Result<Option<Canon>, NoMemory>
        ensures { GivesAnswer result ((site_of self.now).page status (option_copied kind.entry)) }
    {
        match page_for(&self.descriptor, status, kind) {
            Some(page) => Ok(Some(read_page(alloc, page)?)),
            None => Ok(None),
        }
    }
}

/// Returns the name of a resource in the descriptor: that of the servlet, or `default` for the file servlet.
fn name_in(descriptor: &Descriptor, resource: Resource) -> &str
    ensures { (content : Content) → content.app ≡ descriptor.now → result.now ≡ tree.name_of (site_of content) resource }
{
    match resource {
        Resource::Servlet(place) => servlet_name(descriptor, place),
        Resource::Files => "default",
    }
}

fn servlet_name(descriptor: &Descriptor, place: usize) -> &str
    ensures { result.now ≡ slice_index_or (servlet_names descriptor.now) place [] }
{
    match descriptor.web_app().servlets.as_slice().get(place) {
        Some(servlet) => servlet.servlet_name.as_str(),
        None => "",
    }
}

/// Splits the location of a page into its path and its query.
#[tactic(auto, unfolding(sv_descriptor::specs::Location::is_location))]
fn read_page(alloc: Global, page: &str) -> Result<Canon, NoMemory>
    requires { IsTrue (is_location page.now) }
    ensures { IfOk result (λ read. canonical page.now ≡ Ok read) }
{
    match canon(alloc, page.as_bytes()) {
        Ok(read) => Ok(read),
        Err(CanonFault::Path(_)) => unreachable!(),
        Err(CanonFault::NoMemory) => Err(NoMemory),
    }
}

/// The resource that serves a path, and the split of the path (Jakarta Servlet 6.0, sections 3.5 and 12.1).
#[derive(Clone, Copy)]
pub struct Chosen<'a> {
    /// The servlet whose pattern matches the path best, or the file servlet if none matches.
    pub resource: Resource,
    /// The servlet path: the prefix of a prefix pattern, empty for the pattern `""`, and otherwise the whole path.
    pub servlet_path: &'a str,
    /// The rest of the path after the prefix of a prefix pattern, if any, and `/` for the pattern `""`.
    pub path_info: Option<&'a str>,
}

/// The resource that answers a path after its filters (Jakarta Servlet 6.0, sections 12.1 and 12.2).
#[derive(Clone, Copy, Debug, PartialEq, Eq)]
pub enum Resource {
    /// The servlet at this index in the descriptor's list, from 0.
    Servlet(usize),
    /// The file servlet, if no servlet is mapped.
    Files,
}
