//! Queries on the request and its dispatches.

ghost use Rattle.std.specs.Prelude.{◌≡◌, reverse};
ghost use Rattle.std.specs.Option.{option_copied};
ghost use Rattle.sv_exchange.specs.Dispatches.{innermost_paths};

use crate::attributes::{is_reserved_attribute, told_innermost, value_named};
use crate::dispatch::{Dispatch, Paths, shown};
use crate::exchange::Exchange;
use crate::fields::is_called;
use sv_mapping::Kind;

impl Exchange {
    ghost use Rattle.sv_exchange.specs.Attributes.{attribute_of};
    ghost use Rattle.sv_exchange.specs.Dispatches.{kind_of, path_of, path_info_of, paths_of, query_of, servlet_path_of};
    ghost use Rattle.sv_exchange.specs.Fields.{first_value};

    /// Returns the method of the request.
    pub fn method(&self) -> &str
        ensures { result.now ≡ self.now.method }
    {
        self.method.as_str()
    }

    /// Returns the path in the context of the innermost dispatch that is not an include, or else the client's (Jakarta
    /// Servlet 6.0, section 9.3.1).
    pub fn path(&self) -> &str
        ensures { result.now ≡ path_of self.now }
    {
        self.paths().path.as_str()
    }

    /// Returns the part of the path that the servlet's pattern matches, empty before a servlet is chosen.
    pub fn servlet_path(&self) -> &str
        ensures { result.now ≡ servlet_path_of self.now }
    {
        shown(&self.paths().servlet_path).unwrap_or("")
    }

    /// Returns the rest of the path after the servlet path; `None` if there is none.
    pub fn path_info(&self) -> Option<&str>
        ensures { option_copied result ≡ path_info_of self.now }
    {
        shown(&self.paths().path_info)
    }

    /// Returns the query of the path, not decoded; `None` if there is none.
    pub fn query(&self) -> Option<&str>
        ensures { option_copied result ≡ query_of self.now }
    {
        shown(&self.paths().query)
    }

    /// Returns the kind of the innermost dispatch (Jakarta Servlet 6.0, section 3.7).
    pub fn kind(&self) -> Kind
        ensures { result ≡ kind_of self.now }
    {
        match self.dispatches.as_slice().last() {
            Some(dispatch) => dispatch.kind,
            None => Kind::Request,
        }
    }

    /// Returns the value of the first field with the name, in any case; `None` if there is none (Jakarta Servlet 6.0,
    /// section 3.4).
    pub fn header(&self, name: &str) -> Option<&[u8]>
        ensures { option_copied result ≡ first_value name.now self.now.request_fields }
    {
        for field in self.request_fields.iter() {
            if is_called(name, field) {
                return Some(field.value.as_bytes());
            }
        }
        None
    }

    /// Returns the value of the attribute with the name, which is case-sensitive (Jakarta Servlet 6.0, section 3.3).
    /// Only dispatches set names that begin with `jakarta.servlet.` (Jakarta Servlet 6.0, sections 9.3.1 and 9.4.2).
    pub fn attribute(&self, name: &str) -> Option<&str>
        ensures { option_copied result ≡ attribute_of name.now self.now }
    {
        if is_reserved_attribute(name) {
            told_innermost(self, name, self.dispatches.as_slice())
        } else {
            value_named(name, self.attributes.as_slice())
        }
    }

    /// Returns whether the response is committed, so that components can no longer change its status and its fields.
    pub fn committed(&self) -> bool
        ensures { result ≡ self.now.committed }
    {
        self.committed
    }

    /// Returns the time at which the exchange began, in seconds since 1970.
    pub fn moment(&self) -> u64
        ensures { result ≡ self.now.moment }
    {
        self.moment
    }

    // Returns the visible paths.
    fn paths(&self) -> &Paths
        ensures { result.now ≡ paths_of self.now }
    {
        innermost_paths(&self.client, self.dispatches.as_slice())
    }
}

fn innermost_paths<'a>(client: &'a Paths, dispatches: &'a [Dispatch]) -> &'a Paths
    ensures { result.now ≡ innermost_paths client.now (reverse dispatches.now) }
{
    match dispatches.split_last() {
        Some((dispatch, outer)) => {
            if dispatch.is_include() {
                innermost_paths(client, outer)
            } else {
                &dispatch.paths
            }
        }
        None => client,
    }
}
