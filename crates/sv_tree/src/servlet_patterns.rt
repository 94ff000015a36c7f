//! The compiled patterns of a descriptor's servlets.

ghost use Rattle.std.specs.Prelude.{◌≡◌, Some, find, map, slice_get};
ghost use Rattle.sv_descriptor.specs.WellFormed.{IsWellFormed};
ghost use Rattle.sv_mapping.specs.BestMatch.{best, is_best};
ghost use Rattle.sv_text.specs.Gives.{GivesAnswer};
ghost use Rattle.sv_tree.specs.Site.{chosen_by};
ghost use Rattle.sv_tree.specs.Seen.{chosen_seen};
ghost use Rattle.sv_tree.specs.ServletMappings as spec;

use crate::patterns::{copied_patterns, servlet_places};
use crate::site::{Chosen, Resource};
use std::alloc::Global;
use std::marker::Model;
use sv_descriptor::Descriptor;
use sv_mapping::{Pattern, PatternTable, split};
use sv_text::NoMemory;

/// The patterns of a descriptor's servlets, compiled for lookups. Contracts see the list of the patterns, each with the
/// index of its servlet.
#[derive(Drop)]
pub struct ServletPatterns {
    patterns: Vec<Pattern>,
    servlets: Vec<usize>,
    table: PatternTable,
}

impl Model for ServletPatterns {
    ghost use Rattle.std.specs.Prelude.{◌≡◌, List, length};
    ghost use Rattle.sv_tree.specs.Site.{Mapping};
    ghost use Rattle.sv_tree.specs.ServletMappings.{beside};

    ghost Value = { List Mapping };

    ghost view = { λ its. beside its.patterns.items its.servlets.items };

    ghost invariant = { λ its. (its.table ≡ its.patterns.items) × (length its.servlets.items ≡ length its.patterns.items) };
}

impl ServletPatterns {
    /// Compiles the patterns of all servlet mappings, in the descriptor's order.
    ///
    /// # Errors
    /// `NoMemory` if an allocation fails.
    pub fn of(alloc: Global, descriptor: &Descriptor) -> Result<ServletPatterns, NoMemory>
        ensures gives { GivesAnswer result (spec.mappings_of descriptor.now) }
        ensures well_formed { IsWellFormed descriptor.now }
    {
        let app = descriptor.web_app();
        let mappings = app.servlet_mappings.as_slice();
        let patterns = copied_patterns(alloc, mappings)?;
        let servlets = servlet_places(alloc, app.servlets.as_slice(), mappings)?;
        let table = PatternTable::compile(alloc, patterns.as_slice())?;
        Ok(ServletPatterns {
            patterns,
            servlets,
            table,
        })
    }

    /// Returns the patterns in the descriptor's order.
    pub fn patterns(&self) -> &[Pattern]
        ensures { result.now ≡ map (λ mapping. mapping.pattern) self.now }
    {
        self.patterns.as_slice()
    }

    /// Returns the resource for a path within the context: the servlet whose pattern matches best, or the file servlet
    /// if none matches. It allocates nothing, and its cost does not grow with the number of patterns.
    pub fn chosen<'a>(&self, path: &'a str) -> Chosen<'a>
        ensures { chosen_seen result ≡ chosen_by path.now (find (λ mapping. is_best (map (λ other. other.pattern) self.now) path.now mapping.pattern) self.now) }
    {
        match self.table.lookup(path).best {
            Some(place) => self.chosen_at(place, path),
            None => Chosen {
                resource: Resource::Files,
                servlet_path: path,
                path_info: None,
            },
        }
    }

    fn chosen_at<'a>(&self, place: usize, path: &'a str) -> Chosen<'a>
        requires { Some place ≡ best (map (λ mapping. mapping.pattern) self.now) path.now }
        ensures { chosen_seen result ≡ chosen_by path.now (slice_get self.now place) }
    {
        let split = split(&self.patterns[place], path);
        Chosen {
            resource: Resource::Servlet(self.servlets[place]),
            servlet_path: split.servlet_path,
            path_info: split.path_info,
        }
    }
}
