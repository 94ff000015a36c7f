//! The configuration of a component.

use sv_text::{Listed, Text};

/// The name and the parameters of a component, as its descriptor gives them (Jakarta Servlet 6.0, sections 2.3.2 and
/// 6.2.1).
#[derive(Debug, Drop)]
pub struct Config {
    pub name: Text,
    pub params: Listed<Param>,
}

/// An initialization parameter.
#[derive(Debug, Drop)]
pub struct Param {
    pub name: Text,
    pub value: Text,
}

impl Config {
    ghost use Rattle.std.specs.Prelude.{◌≡◌};
    ghost use Rattle.std.specs.Option.{option_copied};
    ghost use Rattle.sv_component.specs.Config.{param_of};

    /// Returns the value of the first parameter with this name, if any.
    pub fn param(&self, name: &str) -> Option<&str>
        ensures { option_copied result ≡ param_of name.now self.now.params }
    {
        for param in self.params.as_slice() {
            if param.name.as_str() == name {
                return Some(param.value.as_str());
            }
        }
        None
    }
}
