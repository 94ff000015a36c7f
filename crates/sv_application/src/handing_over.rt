//! Requests that are handed over to an application.

ghost use Rattle.std.specs.Prelude.{◌≡◌, ◌∷◌, ◌++◌, [], OnOk, Some, map, string_bytes};
ghost use Rattle.std.specs.Option.{option_copied};
ghost use Rattle.sv_exchange.specs.Changing.{Reaches, SetHeader};
ghost use Rattle.sv_text.specs.Gives.{GivesAnswer};
ghost use Rattle.sv_application.specs.HandingOver as spec;

use crate::cookies::{cookies_text, other_cookies};
use crate::names::{encoded_name, roles_text};
use std::alloc::Global;
use sv_component::{Exchange, ExchangeFault};
use sv_realm::Caller;
use sv_text::{NoMemory, Text};
use sv_uri::location;

/// What the application receives of a request.
#[derive(Drop)]
pub struct HandedOver {
    /// The context path and the canonical path as a location, and the query.
    pub target: Text,
    /// The caller, if there is one.
    pub caller: Option<CallerNames>,
    /// The cookies without that of the session, if there are any.
    pub cookies: Option<Text>,
}

/// The name and the roles of a caller, percent-encoded.
#[derive(Drop)]
pub struct CallerNames {
    pub name: Text,
    /// The names of the roles, separated by commas.
    pub roles: Text,
}

/// Hands the request over to the application at an internal location of the proxy: sets the fields
/// `x-application-target`, `x-application-caller` and `x-application-roles` if there is a caller,
/// `x-application-cookie` if there are other cookies than that of the session, and at last `x-accel-redirect` with the
/// internal location. Their values are of the request and its caller, as the container decided about them. The fields
/// stay unchanged if the response is committed or an include is active (Jakarta Servlet 6.0, sections 5.2 and 9.3).
///
/// # Errors
/// `BadHeader` if a value is not valid for a field, and `NoMemory`. The fields before it have been set, but not
/// `x-accel-redirect`.
pub fn hand_over(
    alloc: Global,
    exchange: &mut Exchange,
    internal: &str,
) -> Result<(), ExchangeFault>
    ensures handed { spec.HandsOver internal.now exchange.old result exchange.new }
    ensures reached { Reaches exchange.old exchange.new }
{
    let request = handed_request(alloc, exchange)?;
    set_all(exchange, &request, internal)
}

/// Sets the fields about the request, and then the internal location.
fn set_all(
    exchange: &mut Exchange,
    request: &HandedOver,
    internal: &str,
) -> Result<(), ExchangeFault>
    ensures set { spec.Makes (spec.all_fields request.now internal.now) exchange.old result exchange.new }
    ensures reached { Reaches exchange.old exchange.new }
{
    set_request(exchange, request)?;
    set(exchange, "x-accel-redirect", internal)
}

/// Sets the fields about the request.
fn set_request(exchange: &mut Exchange, request: &HandedOver) -> Result<(), ExchangeFault>
    ensures set { spec.Makes (spec.request_fields request.now) exchange.old result exchange.new }
    ensures reached { Reaches exchange.old exchange.new }
{
    set_text(exchange, "x-application-target", &request.target)?;
    set_client(exchange, request)
}

/// Sets the fields about the client: its caller and its cookies.
fn set_client(exchange: &mut Exchange, request: &HandedOver) -> Result<(), ExchangeFault>
    ensures set { spec.Makes (spec.caller_fields request.now.caller ++ spec.cookie_fields request.now.cookies) exchange.old result exchange.new }
    ensures reached { Reaches exchange.old exchange.new }
{
    set_caller(exchange, &request.caller)?;
    set_cookies(exchange, &request.cookies)
}

fn set_caller(exchange: &mut Exchange, caller: &Option<CallerNames>) -> Result<(), ExchangeFault>
    ensures set { spec.Makes (spec.caller_fields caller.now) exchange.old result exchange.new }
    ensures reached { Reaches exchange.old exchange.new }
{
    match caller {
        Some(names) => set_names(exchange, names),
        None => Ok(()),
    }
}

/// Sets the fields about a caller.
fn set_names(exchange: &mut Exchange, names: &CallerNames) -> Result<(), ExchangeFault>
    ensures set { spec.Makes (spec.caller_fields (Some names.now)) exchange.old result exchange.new }
    ensures reached { Reaches exchange.old exchange.new }
{
    set_text(exchange, "x-application-caller", &names.name)?;
    set_text(exchange, "x-application-roles", &names.roles)
}

fn set_cookies(exchange: &mut Exchange, cookies: &Option<Text>) -> Result<(), ExchangeFault>
    ensures set { spec.Makes (spec.cookie_fields cookies.now) exchange.old result exchange.new }
    ensures reached { Reaches exchange.old exchange.new }
{
    match cookies {
        Some(text) => set_text(exchange, "x-application-cookie", text),
        None => Ok(()),
    }
}

fn set_text(exchange: &mut Exchange, name: &str, value: &Text) -> Result<(), ExchangeFault>
    ensures set { spec.Makes (SetHeader name.now value.now ∷ []) exchange.old result exchange.new }
    ensures reached { Reaches exchange.old exchange.new }
{
    set(exchange, name, value.as_str())
}

/// Sets a field.
fn set(exchange: &mut Exchange, name: &str, value: &str) -> Result<(), ExchangeFault>
    ensures set { spec.Makes (SetHeader name.now value.now ∷ []) exchange.old result exchange.new }
    ensures reached { Reaches exchange.old exchange.new }
{
    exchange.set_header(name, value)?;
    Ok(())
}

/// Returns what the application receives of a request.
fn handed_request(alloc: Global, exchange: &Exchange) -> Result<HandedOver, NoMemory>
    ensures { GivesAnswer result (spec.handed_request exchange.now) }
{
    let target = target(alloc, exchange)?;
    let caller = caller_names(alloc, exchange.caller())?;
    let cookies = cookies(alloc, exchange)?;
    Ok(HandedOver {
        target,
        caller,
        cookies,
    })
}

fn target(alloc: Global, exchange: &Exchange) -> Result<Text, NoMemory>
    ensures { GivesAnswer result (spec.target exchange.now) }
{
    let mut text = location(alloc, exchange.client_uri())?;
    push_query(&mut text, exchange.query())?;
    Ok(Text::from_string(text))
}

fn push_query(text: &mut String, query: Option<&str>) -> Result<(), NoMemory>
    ensures { OnOk result (string_bytes text.new ≡ string_bytes text.old ++ spec.query_text (option_copied query.entry)) }
{
    if let Some(query) = query {
        text.push_str("?")?;
        text.push_str(query)?;
    }
    Ok(())
}

fn caller_names(alloc: Global, caller: Option<&Caller>) -> Result<Option<CallerNames>, NoMemory>
    ensures { GivesAnswer result (spec.caller_names (option_copied caller.entry)) }
{
    let Some(caller) = caller else {
        return Ok(None);
    };
    let name = encoded_name(alloc, caller.name.as_str())?;
    let roles = roles_text(alloc, caller.roles.as_slice())?;
    Ok(Some(CallerNames {
        name: Text::from_string(name),
        roles: Text::from_string(roles),
    }))
}

fn cookies(alloc: Global, exchange: &Exchange) -> Result<Option<Text>, NoMemory>
    ensures { GivesAnswer result (spec.cookies exchange.now) }
{
    let cookies = other_cookies(
        alloc,
        exchange.request_fields(),
        exchange.session_cookie_name(),
    )?;
    joined_cookies(alloc, cookies.as_slice())
}

fn joined_cookies(alloc: Global, cookies: &[&str]) -> Result<Option<Text>, NoMemory>
    ensures { GivesAnswer result (spec.joined_cookies (map (λ cookie. cookie.now) cookies.now)) }
{
    if cookies.is_empty() {
        return Ok(None);
    }
    Ok(Some(Text::from_string(cookies_text(alloc, cookies)?)))
}
