//! Keys and texts of a descriptor that the container ignores.

ghost use Rattle.sv_text.specs.Gives.{Gives};
ghost use Rattle.toml.specs.View.{table_view};
ghost use Rattle.sv_descriptor.specs.Ignored as spec;
ghost use Rattle.sv_descriptor.specs.Fault.{located_fault};
ghost use Rattle.sv_descriptor.specs.Table.{texts};

use crate::fault::LocatedReadFault;
use crate::table::only_keys;
use crate::text::TextSchema;
use std::alloc::Global;
use toml::Table;

/// Checks that an element has only known keys, `description` and `display-name`. Any element may have the last two.
pub fn element_keys(alloc: Global, known: &[&str], table: &Table) -> Result<(), LocatedReadFault>
    ensures { Gives located_fault result (spec.element_keys (texts known.now) (table_view table.now)) }
{
    only_keys(alloc, known, &["description", "display-name"], table)
}

/// A text that the container ignores.
#[derive(Clone, Copy)]
pub struct IgnoredText;

impl TextSchema for IgnoredText {
    type Output = ();

    ghost reads = { λ _. spec.ignored_text };

    fn read(&self, _alloc: Global, _key: &str, _text: &str) -> Result<(), LocatedReadFault> {
        Ok(())
    }
}
