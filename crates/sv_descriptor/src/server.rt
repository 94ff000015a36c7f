//! The server file.

ghost use Rattle.std.specs.Prelude.{IfOk};
ghost use Rattle.sv_text.specs.Gives.{Gives};
ghost use Rattle.sv_descriptor.specs.Server as spec;
ghost use Rattle.sv_descriptor.specs.Fault.{fault, located_fault};

use crate::context_path::ContextPath;
use crate::document::read_document;
use crate::fault::{LocatedReadFault, ReadFault};
use crate::limits::{MAX_PORT, NO_LIMIT, SEED_DIGITS};
use crate::list::ListOf;
use crate::names::{Named, check_distinct};
use crate::schema::{optional, required};
use crate::table::{TableOf, TableSchema, only_keys};
use crate::text::{AnyText, HexText, TextOf};
use crate::whole::{NumberBetween, WholeOf};
use std::alloc::Global;
use sv_text::{Bytes, Listed, Text};
use toml::Table;

/// The settings of a server.
#[derive(Drop)]
pub struct Server {
    /// The port, or 0 for any free one.
    pub port: u16,
    /// The seed for random words, 32 bytes.
    pub seed: Bytes,
    /// The contexts, whose paths differ.
    pub contexts: Listed<ContextEntry>,
}

/// A context of a server. File names are as in the file, and relative to the folder of the server file.
#[derive(Drop)]
pub struct ContextEntry {
    /// The context path: empty, or a canonical path that does not end in `/`.
    pub path: Text,
    /// The name of the descriptor's file.
    pub descriptor: Text,
    /// The name of the folder with the context's files; empty if it has none.
    pub files: Text,
    /// The name of the users file, if any.
    pub users: Option<Text>,
}

impl Named for ContextEntry {
    ghost its_name = { λ context. context.path };

    fn name(&self) -> &str {
        self.path.as_str()
    }
}

/// Reads a server file.
///
/// # Errors
/// The first fault in the format's order, or [`ReadFault::NoMemory`].
pub fn read_server(alloc: Global, text: &str) -> Result<Server, ReadFault>
    ensures gives { Gives fault result (spec.server_of text.now) }
    ensures well_formed { IfOk result spec.IsWellFormedServer }
{
    Ok(read_located_server(alloc, text)?)
}

/// Reads a server file, and locates its fault.
///
/// # Errors
/// The first fault in the format's order with its place, or [`LocatedReadFault::NoMemory`].
#[tactic(auto, unfolding(crate::specs::Server::located_server))]
pub fn read_located_server(alloc: Global, text: &str) -> Result<Server, LocatedReadFault>
    ensures gives { Gives located_fault result (spec.located_server text.now) }
    ensures well_formed { IfOk result spec.IsWellFormedServer }
{
    read_document(alloc, text, &ServerTable)
}

/// The table of a server.
#[derive(Clone, Copy)]
struct ServerTable;

impl TableSchema for ServerTable {
    type Output = Server;

    ghost reads = { λ _. spec.server };

    fn read(&self, alloc: Global, table: &Table) -> Result<Server, LocatedReadFault> {
        only_keys(alloc, &["port", "seed", "context"], &[], table)?;
        let port = WholeOf(NumberBetween {
            least: 0,
            most: MAX_PORT,
        });
        let port = required(alloc, table, "port", &port)?;
        let seed = TextOf(HexText {
            least: SEED_DIGITS,
            most: SEED_DIGITS,
        });
        let seed = required(alloc, table, "seed", &seed)?;
        let contexts = ListOf {
            least: 0,
            most: NO_LIMIT,
            item: TableOf(ContextTable),
        };
        let contexts = required(alloc, table, "context", &contexts)?;
        check_distinct(alloc, contexts.as_slice(), "context", "path")?;
        Ok(Server {
            port,
            seed,
            contexts,
        })
    }
}

/// The table of a context.
#[derive(Clone, Copy)]
struct ContextTable;

impl TableSchema for ContextTable {
    type Output = ContextEntry;

    ghost reads = { λ _. spec.context };

    fn read(&self, alloc: Global, table: &Table) -> Result<ContextEntry, LocatedReadFault> {
        only_keys(alloc, &["path", "descriptor", "files", "users"], &[], table)?;
        Ok(ContextEntry {
            path: required(alloc, table, "path", &TextOf(ContextPath))?,
            descriptor: required(alloc, table, "descriptor", &TextOf(AnyText))?,
            files: required(alloc, table, "files", &TextOf(AnyText))?,
            users: optional(alloc, table, "users", &TextOf(AnyText))?,
        })
    }
}
