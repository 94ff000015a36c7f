//! The parameters of a component.

ghost use Rattle.sv_text.specs.Gives.{Gives};
ghost use Rattle.toml.specs.View.{view};
ghost use Rattle.sv_descriptor.specs.InitParam.{init_params};
ghost use Rattle.sv_descriptor.specs.Fault.{located_fault, within};
ghost use Rattle.sv_descriptor.specs.Value.{any_text, text_of};
ghost use Rattle.sv_descriptor.specs.declared.fault.ValueStep.TheVariants.{Key};

use crate::fault::{LocatedReadFault, within_key};
use crate::schema::Schema;
use crate::table::TableSchema;
use crate::text::{AnyText, TextOf};
use std::alloc::Global;
use sv_text::{Listed, Text};
use toml::{Table, Value};

/// A parameter of a servlet or a filter (`init-param`).
#[derive(Drop)]
pub struct InitParam {
    /// The parameter's name, any text.
    pub name: Text,
    /// The parameter's value, any text.
    pub value: Text,
}

/// The table of a component's parameters.
#[derive(Clone, Copy)]
pub struct InitParams;

impl TableSchema for InitParams {
    type Output = Listed<InitParam>;

    ghost reads = { λ _. init_params };

    fn read(&self, alloc: Global, table: &Table) -> Result<Listed<InitParam>, LocatedReadFault> {
        let mut params = Vec::with_capacity(alloc, table.len())?;
        for (name, value) in table.iter() {
            let value = read_value(alloc, name.as_str(), value)?;
            let name = Text::copy_of(alloc, name.as_str())?;
            params.push(InitParam { name, value })?;
        }
        Ok(Listed::from_vec(params))
    }
}

fn read_value(alloc: Global, name: &str, value: &Value) -> Result<Text, LocatedReadFault>
    ensures { Gives located_fault result (within (Key name.now) (text_of any_text name.now (view value.now))) }
{
    within_key(alloc, name, TextOf(AnyText).read(alloc, name, value))
}
