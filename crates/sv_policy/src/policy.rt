//! A compiled policy.

ghost use Rattle.std.specs.Prelude.{◌≡◌, ◌≤◌, ◌<◌, ◌+◌, IfOk, is_some, true};
ghost use Rattle.std.specs.Option.{option_copied};
ghost use Rattle.sv_constraints.specs.Covering.{all_patterns};
ghost use Rattle.sv_constraints.specs.Decision.{seen};
ghost use Rattle.sv_constraints.specs.Verdict.{verdict};
ghost use Rattle.sv_mapping.specs.BestMatch.{best_pattern};
ghost use Rattle.sv_mapping.specs.Segments.{segments};
ghost use Rattle.sv_policy.specs.Compiled.{compiled, greatest_number};
ghost use Rattle.sv_policy.specs.Gaps.{gaps};
ghost use Rattle.sv_text.specs.Gives.{GivesAnswer};

use crate::gaps::{Gap, gaps_of};
use crate::grouped_tables::tables_of;
use crate::laws::best_is_of_texts;
use crate::shared_tables::table_at;
use crate::table::Table;
use crate::tables::index_of;
use std::alloc::Global;
use std::marker::Model;
use std::rc::Rc;
use sv_constraints::{Cause, Constraint, Decision, Rules, Why, findings_decide};
use sv_mapping::PatternTable;
use sv_realm::Caller;
use sv_text::NoMemory;

/// Security constraints, compiled for decisions. In contracts, its value is the current constraints, their rules, the
/// greatest number assigned so far, and the count of patterns affected by edits.
#[derive(Drop)]
pub struct Policy {
    pub(crate) constraints: Vec<Constraint>,
    pub(crate) rules: Rules,
    pub(crate) greatest: u64,
    pub(crate) rebuilt: u64,
    pub(crate) tables: Vec<Rc<Table>>,
    pub(crate) index: PatternTable,
}

impl Model for Policy {
    ghost use Rattle.std.specs.Prelude.{◌≡◌, map};
    ghost use Rattle.sv_policy.specs.Compiled.{AreCompiled, Standing};

    ghost Value = { Standing };

    ghost view = { λ policy. record {
      constraints = policy.constraints.items;
      rules = policy.rules;
      greatest = policy.greatest;
      rebuilt = policy.rebuilt;
    } };

    ghost invariant = { λ policy.
        AreCompiled policy.rules policy.constraints.items (map (λ table. table.value) policy.tables.items)
        × (policy.index ≡ map (λ table. table.value.pattern) policy.tables.items) };
}

/// A decision and the number of its lookups.
#[derive(Clone, Copy)]
pub struct Decided<'a> {
    /// The decision.
    pub decision: Decision<'a>,
    /// The number of segments, extensions and methods that were looked up. Lookups by role are not counted.
    pub probes: usize,
}

/// Returns the greatest number of constraints, or 0 if there are none.
pub(crate) fn greatest_number(constraints: &[Constraint]) -> u64
    ensures { result ≡ greatest_number constraints.now }
{
    constraints
        .iter()
        .fold(0, |greatest, constraint| greatest.max(constraint.number))
}

impl Policy {
    /// Compiles constraints, in any order and with any numbers. If memory runs out, they are dropped.
    pub fn compile(
        alloc: Global,
        constraints: Vec<Constraint>,
        rules: Rules,
    ) -> Result<Policy, NoMemory>
        ensures { GivesAnswer result (compiled constraints.items rules) }
    {
        let tables = tables_of(alloc, &rules, constraints.as_slice())?;
        let index = index_of(alloc, tables.as_slice())?;
        Ok(Policy {
            greatest: greatest_number(constraints.as_slice()),
            rebuilt: 0,
            constraints,
            rules,
            tables,
            index,
        })
    }

    /// Returns the current constraints, in their order.
    pub fn constraints(&self) -> &[Constraint]
        ensures { result.now ≡ self.now.constraints }
    {
        self.constraints.as_slice()
    }

    /// Returns the gaps of the current constraints: each of their patterns that has uncovered methods, with these
    /// methods. Whether uncovered methods are denied does not matter.
    pub fn uncovered(&self, alloc: Global) -> Result<Vec<Gap>, NoMemory>
        ensures { IfOk result (λ found. found.items ≡ gaps self.now.constraints) }
    {
        gaps_of(alloc, self.tables.as_slice())
    }

    /// Decides a request by the current constraints, as [`decide_plain`](sv_constraints::decide_plain) does, and counts
    /// its lookups. The path is any text, and is compared unchanged. Allocates no memory, and does not iterate over the
    /// constraints.
    #[inline(always)]
    pub fn decide<'a>(&'a self, method: &str, path: &str, caller: Option<&Caller>) -> Decided<'a>
        ensures decision { seen result.decision ≡ verdict self.now.constraints self.now.rules method.now path.now (option_copied caller.entry) }
        ensures probes { result.probes ≤ segments path.now + 2 }
        ensures counted { is_some (best_pattern (all_patterns self.now.constraints) path.now) ≡ true → 0 < result.probes }
    {
        best_is_of_texts();
        findings_decide();
        let looked = self.index.lookup(path);
        match table_at(self.tables.as_slice(), looked.best) {
            None => Decided {
                decision: Decision::Open(Why {
                    pattern: None,
                    number: None,
                    cause: Cause::NoPattern,
                }),
                probes: looked.probes,
            },
            Some(table) => Decided {
                decision: table
                    .findings(method, caller)
                    .decide(&table.pattern, &self.rules, caller),
                probes: looked.probes.saturating_add(1),
            },
        }
    }
}
