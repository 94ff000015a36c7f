//! Tables being made, and a lookup by mark of those that may share their entries.

ghost use Rattle.std.specs.Prelude.{◌≡◌, ◌++◌, ◌∷◌, [], List, map, All, IfOk, IfSome, OnOk};
ghost use Rattle.std.specs.Option.{option_and_then, option_copied};
ghost use Rattle.std.specs.Prelude.{slice_get};
ghost use Rattle.sv_policy.specs.Table.{IsTable};

use crate::table::Table;
use std::alloc::Global;
use std::collections::HashMap;
use std::rc::Rc;
use sv_text::NoMemory;

/// The tables made so far, and the index of the last one with each mark.
#[derive(Drop)]
pub struct Making {
    /// The tables.
    pub tables: Vec<Rc<Table>>,
    places: HashMap<u64, usize>,
}

/// Returns the index of the last table with each mark.
fn places_of(alloc: Global, tables: &[Rc<Table>]) -> Result<HashMap<u64, usize>, NoMemory> {
    let mut places = HashMap::new(alloc);
    for (place, table) in tables.iter().enumerate() {
        places.insert(table.mark, place)?;
    }
    Ok(places)
}

/// Returns the table at an index, if any.
pub fn table_at(tables: &[Rc<Table>], place: Option<usize>) -> Option<&Table>
    ensures { option_copied result ≡ option_and_then (λ at. slice_get (map (λ table. table.value) tables.now) at) place }
{
    let table = tables.get(place?)?;
    Some(table)
}

impl Making {
    ghost use Rattle.sv_constraints.specs.declared.constraint.Constraint.{Constraint};
    ghost use Rattle.sv_constraints.specs.declared.constraint.Rules.{Rules};

    /// Starts with these tables.
    pub fn beginning(alloc: Global, tables: Vec<Rc<Table>>) -> Result<Making, NoMemory>
        ensures { IfOk result (λ making. making.tables ≡ tables) }
    {
        let places = places_of(alloc, tables.as_slice())?;
        Ok(Making { tables, places })
    }

    /// Appends a table.
    pub fn push(&mut self, alloc: Global, table: Table) -> Result<(), NoMemory>
        ensures { OnOk result (map (λ made. made.value) self.new.tables.items ≡ map (λ made. made.value) self.old.tables.items ++ table ∷ []) }
    {
        self.places.insert(table.mark, self.tables.len())?;
        self.tables.push(Rc::new(alloc, table)?)?;
        Ok(())
    }

    /// Returns the last table with this mark, if any.
    pub fn marked(&self, mark: u64) -> Option<&Table>
        ensures { (rules : Rules) (constraints : List Constraint) → All (λ table. IsTable rules constraints table.value) self.now.tables.items →
            IfSome (option_copied result) (IsTable rules constraints) }
    {
        table_at(self.tables.as_slice(), self.places.get(&mark).copied())
    }
}
