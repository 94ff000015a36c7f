//! A context of an application, built call by call.

ghost use Rattle.std.specs.Prelude.{IfOk, Ok, OnOk, [], ◌++◌, ◌∷◌, ◌≡◌};
ghost use Rattle.sv_text.specs.Gives.{GivesAnswer};

use crate::elements::{push_elements, push_filter, push_listener, push_servlet};
use bytes::Bytes;
use std::alloc::Global;
use std::marker::Model;
use sv_component::Named;
use sv_files::File;
use sv_text::{Listed, NoMemory, Text};

/// A context of an application: its path, its servlets, filters and listeners, its static files and its users. Each call
/// takes the context and returns it with an addition, and contracts see its contents. Components are declared in the order
/// of the calls. Filters are chained, and listeners are notified, in this order (Jakarta Servlet 6.0, sections 6.2.4 and
/// 11.3.1).
///
/// A call that fails with [`NoMemory`] drops the context.
#[derive(Drop)]
pub struct Deployment<S, F, L> {
    alloc: Global,
    path: Text,
    descriptor: String,
    servlets: Vec<Named<S>>,
    filters: Vec<Named<F>>,
    listeners: Vec<L>,
    files: Vec<File>,
    users: Text,
}

impl<S, F, L> Model for Deployment<S, F, L> {
    ghost use Rattle.std.specs.Prelude.{string_bytes};
    ghost use Rattle.sv_web.specs.declared.deployment.Content.{Content};

    ghost Value = { Content S F L };

    ghost view = { λ d. record {
      path = d.path;
      descriptor = string_bytes d.descriptor;
      servlets = d.servlets.items;
      filters = d.filters.items;
      listeners = d.listeners.items;
      files = d.files.items;
      users = d.users;
    } };
}

impl<S: Drop, F: Drop, L: Drop> Deployment<S, F, L> {
    ghost use Rattle.std.specs.Prelude.{◌≡◌, OnOk, string_bytes, [], ◌∷◌, ◌++◌};
    ghost use Rattle.sv_web.specs.Deploying as spec;

    /// Creates an empty context at a path: `/` for the root context, or a path such as `/shop` (Jakarta Servlet 6.0,
    /// section 3.5).
    pub fn at(alloc: Global, path: &str) -> Result<Deployment<S, F, L>, NoMemory>
        ensures { GivesAnswer result (spec.at_path path.now) }
    {
        let path = if path == "/" { "" } else { path };
        Ok(Deployment {
            alloc,
            path: Text::copy_of(alloc, path)?,
            descriptor: String::new(alloc),
            servlets: Vec::new(alloc),
            filters: Vec::new(alloc),
            listeners: Vec::new(alloc),
            files: Vec::new(alloc),
            users: Text::from_string(String::new(alloc)),
        })
    }

    /// Adds descriptor elements as TOML (Jakarta Servlet 6.0, section 14.4): constraints, a login, error pages, or more
    /// mappings for components. Servlets, filters and listeners can only be added by the other calls. Keys outside
    /// tables, such as `version`, must be in the first text, before any other call.
    pub fn describe(mut self, elements: &str) -> Result<Deployment<S, F, L>, NoMemory>
        ensures { IfOk result (λ deployment. deployment ≡ spec.with_elements elements.now self) }
    {
        let added = push_elements(&mut self.descriptor, elements);
        kept(self, added)
    }

    /// Adds a servlet by its name, at one or more URL patterns (Jakarta Servlet 6.0, sections 4.4.1 and 12.2).
    pub fn servlet(
        mut self,
        name: &str,
        patterns: &[&str],
        servlet: S,
    ) -> Result<Deployment<S, F, L>, NoMemory>
        ensures { IfOk result (λ deployment. deployment ≡ spec.with_servlet name.now patterns.now servlet self) }
    {
        let added = self.add_servlet(name, patterns, servlet);
        kept(self, added)
    }

    /// Adds a filter by its name, for client requests whose paths match one or more URL patterns (Jakarta Servlet 6.0,
    /// sections 4.4.2 and 6.2.4).
    pub fn filter(
        mut self,
        name: &str,
        patterns: &[&str],
        filter: F,
    ) -> Result<Deployment<S, F, L>, NoMemory>
        ensures { IfOk result (λ deployment. deployment ≡ spec.with_filter name.now patterns.now filter self) }
    {
        let added = self.add_filter(name, patterns, filter);
        kept(self, added)
    }

    /// Adds a listener (Jakarta Servlet 6.0, sections 4.4.3 and 11.3).
    pub fn listener(mut self, listener: L) -> Result<Deployment<S, F, L>, NoMemory>
        ensures { IfOk result (λ deployment. deployment ≡ spec.with_listener listener self) }
    {
        let added = self.add_listener(listener);
        kept(self, added)
    }

    /// Adds a static file at a path within the context, which begins with `/` (Jakarta Servlet 6.0, section 10.10).
    pub fn file(mut self, path: &str, bytes: &[u8]) -> Result<Deployment<S, F, L>, NoMemory>
        ensures { IfOk result (λ deployment. deployment ≡ spec.with_file path.now bytes.now self) }
    {
        let added = push_file(self.alloc, &mut self.files, path, bytes);
        kept(self, added)
    }

    /// Sets the users to those of a users file, a text in TOML. Earlier users are replaced.
    pub fn users(mut self, users: &str) -> Result<Deployment<S, F, L>, NoMemory>
        ensures { IfOk result (λ deployment. deployment ≡ spec.with_users users.now self) }
    {
        let given = put_text(self.alloc, &mut self.users, users);
        kept(self, given)
    }

    /// Returns a list of only this context, for an application that has no other.
    pub fn alone(self) -> Result<Vec<Deployment<S, F, L>>, NoMemory>
        ensures { IfOk result (λ contexts. contexts.items ≡ self ∷ []) }
    {
        let alloc = self.alloc;
        Ok(vec![in alloc; self]?)
    }

    /// Returns the contents of the context. Allocates no memory.
    pub fn into_content(self) -> Content<S, F, L>
        ensures { result ≡ self }
    {
        Content {
            path: self.path,
            descriptor: Text::from_string(self.descriptor),
            servlets: Listed::from_vec(self.servlets),
            filters: Listed::from_vec(self.filters),
            listeners: Listed::from_vec(self.listeners),
            files: Listed::from_vec(self.files),
            users: self.users,
        }
    }
    // Declares the servlet and stores it.
    fn add_servlet(&mut self, name: &str, patterns: &[&str], servlet: S) -> Result<(), NoMemory>
        ensures { OnOk result (self.new ≡ spec.with_servlet name.now patterns.now servlet self.old) }
    {
        push_servlet(&mut self.descriptor, name, patterns)?;
        push_component(self.alloc, &mut self.servlets, name, servlet)
    }

    // Declares the filter and stores it.
    fn add_filter(&mut self, name: &str, patterns: &[&str], filter: F) -> Result<(), NoMemory>
        ensures { OnOk result (self.new ≡ spec.with_filter name.now patterns.now filter self.old) }
    {
        push_filter(&mut self.descriptor, name, patterns)?;
        push_component(self.alloc, &mut self.filters, name, filter)
    }

    // Declares the listener and stores it.
    fn add_listener(&mut self, listener: L) -> Result<(), NoMemory>
        ensures { OnOk result (self.new ≡ spec.with_listener listener self.old) }
    {
        push_listener(&mut self.descriptor)?;
        self.listeners.push(listener)?;
        Ok(())
    }
}

// Returns the deployment after a successful call. Only this function drops a deployment.
fn kept<T: Drop>(value: T, done: Result<(), NoMemory>) -> Result<T, NoMemory>
    ensures kept { IfOk result (λ kept. kept ≡ value) }
    ensures done { IfOk result (λ _. done ≡ Ok tt) }
{
    match done {
        Ok(()) => Ok(value),
        Err(fault) => Err(fault),
    }
}

// Adds a component with its name.
fn push_component<C: Drop>(
    alloc: Global,
    components: &mut Vec<Named<C>>,
    name: &str,
    component: C,
) -> Result<(), NoMemory>
    ensures { OnOk result (components.new.items ≡ components.old.items ++ record { name = name.now; component = component } ∷ []) }
{
    let name = Text::copy_of(alloc, name)?;
    components.push(Named { name, component })?;
    Ok(())
}

// Adds a file.
fn push_file(alloc: Global, files: &mut Vec<File>, path: &str, bytes: &[u8]) -> Result<(), NoMemory>
    ensures { OnOk result (files.new.items ≡ files.old.items ++ record { path = path.now; bytes = bytes.now } ∷ []) }
{
    let path = Text::copy_of(alloc, path)?;
    let bytes = Bytes::copy_from_slice(alloc, bytes)?;
    files.push(File { path, bytes })?;
    Ok(())
}

// Replaces a text by a copy of another.
fn put_text(alloc: Global, place: &mut Text, text: &str) -> Result<(), NoMemory>
    ensures { OnOk result (place.new ≡ text.now) }
{
    *place = Text::copy_of(alloc, text)?;
    Ok(())
}

/// The contents of one context. Its descriptor declares the servlets, filters and listeners in the order of their
/// lists.
#[derive(Drop)]
pub struct Content<S, F, L> {
    /// The context path, empty for the root context.
    pub path: Text,
    /// The deployment descriptor as a text.
    pub descriptor: Text,
    /// The servlets, with their names.
    pub servlets: Listed<Named<S>>,
    /// The filters, with their names.
    pub filters: Listed<Named<F>>,
    /// The listeners.
    pub listeners: Listed<L>,
    /// The static files.
    pub files: Listed<File>,
    /// The users file as a text, empty if there are no users.
    pub users: Text,
}
