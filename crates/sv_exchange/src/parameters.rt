//! Looking up the parameters of a request.

ghost use Rattle.std.specs.Prelude.{◌≡◌, reverse};
ghost use Rattle.std.specs.List.{flat_map};
ghost use Rattle.sv_text.specs.Gives.{GivesAnswer};
ghost use Rattle.sv_message.specs.Parameters.{first_named};
ghost use Rattle.sv_exchange.specs.Parameters.{dispatch_parameters, query_parameters};

use crate::dispatch::Dispatch;
use crate::exchange::Exchange;
use std::alloc::Global;
use sv_message::{first_of_form, first_of_query};
use sv_text::{NoMemory, Text};

impl Exchange {
    ghost use Rattle.sv_exchange.specs.Parameters.{body_parameters, client_parameters, parameter_of};

    /// Returns the first value of the parameter with the name, which is case-sensitive; `None` if there is none
    /// (Jakarta Servlet 6.0, section 3.1). The queries of the active dispatches come first, beginning with the
    /// innermost (section 9.1.1). The client's query follows, then the body of a POST with the Content-Type of a form.
    ///
    /// # Errors
    /// [`NoMemory`]: an allocation failed.
    pub fn parameter(&self, name: &str) -> Result<Option<Text>, NoMemory>
        ensures { GivesAnswer result (parameter_of name.now self.now) }
    {
        match first_of_dispatches(self.alloc, self.dispatches.as_slice(), name)? {
            Some(value) => Ok(Some(value)),
            None => self.first_of_client(name),
        }
    }

    // Returns the first value with the name that the client sent.
    fn first_of_client(&self, name: &str) -> Result<Option<Text>, NoMemory>
        ensures { GivesAnswer result (first_named name.now (client_parameters self.now)) }
    {
        match first_of_shown(self.alloc, self.client.query(), name)? {
            Some(value) => Ok(Some(value)),
            None => self.first_of_body(name),
        }
    }

    // Returns the first value with the name in the body.
    fn first_of_body(&self, name: &str) -> Result<Option<Text>, NoMemory>
        ensures { GivesAnswer result (first_named name.now (body_parameters self.now)) }
    {
        let content_type = self.header("content-type");
        let body = self.body.as_slice();
        first_of_form(self.alloc, self.method.as_str(), content_type, body, name)
    }
}

// Returns the first value with the name in the queries of dispatches, the innermost first.
fn first_of_dispatches(
    alloc: Global,
    dispatches: &[Dispatch],
    name: &str,
) -> Result<Option<Text>, NoMemory>
    ensures { GivesAnswer result (first_named name.now (flat_map dispatch_parameters (reverse dispatches.now))) }
{
    match dispatches.split_last() {
        Some((dispatch, outer)) => match first_of_shown(alloc, dispatch.paths.query(), name)? {
            Some(value) => Ok(Some(value)),
            None => first_of_dispatches(alloc, outer, name),
        },
        None => Ok(None),
    }
}

// Returns the first value with the name in an optional query.
fn first_of_shown(alloc: Global, query: &Option<Text>, name: &str) -> Result<Option<Text>, NoMemory>
    ensures { GivesAnswer result (first_named name.now (query_parameters query.now)) }
{
    match query {
        Some(query) => first_of_query(alloc, query.as_bytes(), name),
        None => Ok(None),
    }
}
