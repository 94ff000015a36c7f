//! The deployment descriptor.

ghost use Rattle.std.specs.Prelude.{◌≡◌, IfOk};
ghost use Rattle.sv_text.specs.Gives.{Gives};
ghost use Rattle.sv_descriptor.specs.Descriptor.{descriptor, descriptor_of, located_descriptor};
ghost use Rattle.sv_descriptor.specs.WellFormed.{IsWellFormed};
ghost use Rattle.sv_descriptor.specs.Fault.{fault, located_fault};

use crate::agreement::check_agreement;
use crate::document::read_document;
use crate::fault::{LocatedReadFault, ReadFault};
use crate::table::TableSchema;
use crate::web_app::{WebApp, read_web_app};
use std::alloc::Global;
use std::marker::Model;
use toml::Table;

/// A well-formed deployment descriptor. Contracts see its elements.
#[derive(Drop)]
pub struct Descriptor {
    web_app: WebApp,
}

impl Model for Descriptor {
    ghost use Rattle.sv_descriptor.specs.declared.web_app.WebApp.{WebApp};
    ghost use Rattle.sv_descriptor.specs.WellFormed.{IsWellFormed};

    ghost Value = { WebApp };

    ghost view = { λ descriptor. descriptor.web_app };

    ghost invariant = { λ descriptor. IsWellFormed descriptor.web_app };
}

impl Descriptor {
    /// Returns the elements, which are well-formed.
    pub fn web_app(&self) -> &WebApp
        ensures value { result.now ≡ self.now }
        ensures well_formed { IsWellFormed self.now }
    {
        &self.web_app
    }

    /// Converts the descriptor to its elements. Takes no memory.
    pub fn into_web_app(self) -> WebApp
        ensures value { result ≡ self }
        ensures well_formed { IsWellFormed result }
    {
        let Descriptor { web_app } = self;
        web_app
    }
}

/// Reads a deployment descriptor.
///
/// # Errors
/// The first fault in the format's order, or [`ReadFault::NoMemory`].
#[tactic(auto, unfolding(crate::specs::Descriptor::descriptor_of))]
pub fn read_descriptor(alloc: Global, text: &str) -> Result<Descriptor, ReadFault>
    ensures gives { Gives fault result (descriptor_of text.now) }
    ensures well_formed { IfOk result IsWellFormed }
{
    Ok(read_located_descriptor(alloc, text)?)
}

/// Reads a deployment descriptor, and locates its fault.
///
/// # Errors
/// The first fault in the format's order with its place, or [`LocatedReadFault::NoMemory`].
#[tactic(auto, unfolding(crate::specs::Descriptor::located_descriptor))]
pub fn read_located_descriptor(alloc: Global, text: &str) -> Result<Descriptor, LocatedReadFault>
    ensures gives { Gives located_fault result (located_descriptor text.now) }
    ensures well_formed { IfOk result IsWellFormed }
{
    read_document(alloc, text, &DescriptorTable)
}

/// The table of a descriptor.
#[derive(Clone, Copy)]
struct DescriptorTable;

impl TableSchema for DescriptorTable {
    type Output = Descriptor;

    ghost reads = { λ _. descriptor };

    fn read(&self, alloc: Global, table: &Table) -> Result<Descriptor, LocatedReadFault> {
        let web_app = read_web_app(alloc, table)?;
        check_agreement(alloc, &web_app)?;
        Ok(Descriptor { web_app })
    }
}
