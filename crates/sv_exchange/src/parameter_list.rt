//! The list of all parameters of a request.

ghost use Rattle.std.specs.Prelude.{◌≡◌, ◌++◌, reverse, IfOk, OnOk};
ghost use Rattle.std.specs.List.{flat_map};
ghost use Rattle.std.specs.Option.{option_copied};
ghost use Rattle.sv_message.specs.Form.{form_parameters};
ghost use Rattle.sv_message.specs.Parameters.{parameters_of};
ghost use Rattle.sv_exchange.specs.Parameters.{dispatch_parameters, query_parameters};

use crate::dispatch::Dispatch;
use crate::exchange::Exchange;
use form_urlencoded::raw_pairs;
use std::alloc::Global;
use sv_message::{is_form, text_of};
use sv_text::{NoMemory, Text};

impl Exchange {
    ghost use Rattle.sv_exchange.specs.Parameters.{all_parameters};

    /// Returns all parameters of the request as names with values, in the order that [`parameter`](Exchange::parameter)
    /// searches (Jakarta Servlet 6.0, sections 3.1 and 9.1.1). A name that was sent more than once occurs as often.
    ///
    /// # Errors
    /// [`NoMemory`]: an allocation failed.
    pub fn parameters(&self) -> Result<Vec<(Text, Text)>, NoMemory>
        ensures { IfOk result (λ parameters. parameters.items ≡ all_parameters self.now) }
    {
        let mut parameters = Vec::new(self.alloc);
        push_dispatches(self.alloc, self.dispatches.as_slice(), &mut parameters)?;
        push_shown(self.alloc, &self.client.query, &mut parameters)?;
        let content_type = self.header("content-type");
        let body = self.body.as_slice();
        push_form(
            self.alloc,
            self.method.as_str(),
            content_type,
            body,
            &mut parameters,
        )?;
        Ok(parameters)
    }
}

// Appends the parameters in the queries of dispatches, the innermost first.
fn push_dispatches(
    alloc: Global,
    dispatches: &[Dispatch],
    parameters: &mut Vec<(Text, Text)>,
) -> Result<(), NoMemory>
    ensures { OnOk result (parameters.new.items ≡ parameters.old.items ++ flat_map dispatch_parameters (reverse dispatches.now)) }
{
    match dispatches.split_last() {
        Some((dispatch, outer)) => {
            push_shown(alloc, &dispatch.paths.query, parameters)?;
            push_dispatches(alloc, outer, parameters)
        }
        None => Ok(()),
    }
}

// Appends the parameters of a body, if it is a form.
fn push_form(
    alloc: Global,
    method: &str,
    content_type: Option<&[u8]>,
    body: &[u8],
    parameters: &mut Vec<(Text, Text)>,
) -> Result<(), NoMemory>
    ensures { OnOk result (parameters.new.items
        ≡ parameters.old.items ++ form_parameters method.now (option_copied content_type.entry) body.now) }
{
    if is_form(method, content_type) {
        push_query(alloc, body, parameters)
    } else {
        Ok(())
    }
}

// Appends the parameters of an optional query.
fn push_shown(
    alloc: Global,
    query: &Option<Text>,
    parameters: &mut Vec<(Text, Text)>,
) -> Result<(), NoMemory>
    ensures { OnOk result (parameters.new.items ≡ parameters.old.items ++ query_parameters query.now) }
{
    match query {
        Some(query) => push_query(alloc, query.as_bytes(), parameters),
        None => Ok(()),
    }
}

// Appends the parameters of a query or a form.
fn push_query(
    alloc: Global,
    query: &[u8],
    parameters: &mut Vec<(Text, Text)>,
) -> Result<(), NoMemory>
    ensures { OnOk result (parameters.new.items ≡ parameters.old.items ++ parameters_of query.now) }
{
    for (key, value) in raw_pairs(query) {
        let name = text_of(alloc, key)?;
        let value = text_of(alloc, value)?;
        parameters.push((name, value))?;
    }
    Ok(())
}
