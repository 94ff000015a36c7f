//! The merged table of a pattern.

ghost use Rattle.std.specs.Prelude.{◌≡◌, List, IfOk, map, Some};
ghost use Rattle.std.specs.Option.{option_copied};
ghost use Rattle.sv_constraints.specs.Covering.{covering};
ghost use Rattle.sv_constraints.specs.Findings.{findings_of};
ghost use Rattle.sv_policy.specs.Table.{IsTable};
ghost use Rattle.sv_policy.specs.Uncovered.{uncovered_methods};
ghost use Rattle.sv_text.specs.Gives.{GivesAnswer};

use crate::entries::Entries;
use std::alloc::Global;
use std::rc::Rc;
use sv_constraints::{Constraint, Findings, Methods, Rules};
use sv_mapping::Pattern;
use sv_realm::Caller;
use sv_text::NoMemory;

/// The constraints on a pattern, merged: an entry for each method that one of them names there, and one for all other
/// methods. Tables of several patterns may share their entries.
#[derive(Drop)]
pub struct Table {
    /// The pattern.
    pub pattern: Pattern,
    /// A number given by the maker of the entries, used to find tables that may share them.
    pub mark: u64,
    entries: Rc<Entries>,
}

impl Table {
    ghost use Rattle.sv_constraints.specs.declared.constraint.Constraint.{Constraint};
    ghost use Rattle.sv_constraints.specs.declared.constraint.Rules.{Rules};

    /// Merges constraints into the table of a pattern.
    pub fn merge(
        alloc: Global,
        rules: &Rules,
        pattern: Pattern,
        mark: u64,
        members: &[&Constraint],
    ) -> Result<Table, NoMemory>
        ensures table { IfOk result (λ table. IsTable rules.now (map (λ member. member.now) members.now) table) }
        ensures pattern { IfOk result (λ table. table.pattern ≡ pattern) }
        ensures mark { IfOk result (λ table. table.mark ≡ mark) }
    {
        let entries = Entries::merge(alloc, rules, pattern.text(), members)?;
        Ok(Table {
            pattern,
            mark,
            entries: Rc::new(alloc, entries)?,
        })
    }

    /// Returns a table of another pattern that shares the entries of this one.
    pub fn sharing(&self, pattern: Pattern) -> Result<Table, NoMemory>
        ensures entries { IfOk result (λ table. table.entries.value ≡ self.now.entries.value) }
        ensures pattern { IfOk result (λ table. table.pattern ≡ pattern) }
        ensures mark { IfOk result (λ table. table.mark ≡ self.now.mark) }
    {
        Ok(Table {
            pattern,
            mark: self.mark,
            entries: self.entries.clone()?,
        })
    }

    /// Returns the findings for the merged constraints that cover the method at the pattern. Looks up the method once,
    /// and each role of the caller once. Allocates no memory.
    pub fn findings(&self, method: &str, caller: Option<&Caller>) -> Findings
        ensures { (rules : Rules) (constraints : List Constraint) → IsTable rules constraints self.now →
            result ≡ findings_of rules (option_copied caller.entry) (covering constraints (Some self.now.pattern) method.now) }
    {
        self.entries.of(method).findings(caller)
    }

    /// Returns the methods that no constraint covers at the pattern: the listed ones, or all except the listed ones.
    /// The names are in ascending byte order.
    pub fn uncovered(&self, alloc: Global) -> Result<Methods, NoMemory>
        ensures { (rules : Rules) (constraints : List Constraint) → IsTable rules constraints self.now →
            GivesAnswer result (uncovered_methods constraints self.now.pattern) }
    {
        self.entries.uncovered(alloc)
    }
}
