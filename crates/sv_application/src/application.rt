//! The servlet class `Application`.

ghost use Rattle.std.specs.Prelude.{◌≡◌, []};
ghost use Rattle.std.specs.List.{list_all};
ghost use Rattle.sv_exchange.specs.Changing.{Reaches};
ghost use Rattle.sv_application.specs.Serving as spec;

use crate::handing_over::hand_over;
use std::alloc::Global;
use sv_component::{Config, Exchange, ExchangeFault, Init, Servlet, Step};
use sv_mapping::Kind;
use sv_text::{NoMemory, Text};

const NOT_FOUND: u16 = 404;

/// Hands each request of a client over to the application behind a proxy, by [`hand_over`](crate::hand_over). In any
/// other dispatch it answers 404: a forward, an include or an error page is never handed over, since its request may
/// not have entered (Jakarta Servlet 6.0, sections 9.4, 10.9.2 and 13.6.3).
///
/// Its parameter `location` is the internal location of the proxy: `@` and a name of ASCII letters, digits, `-` and `_`.
/// The default is `@application`. With any other value its `init` fails.
#[derive(Drop)]
pub struct Application {
    /// The internal location. It is empty before `init`.
    pub location: Text,
}

impl Application {
    /// Creates a servlet that is not yet initialized.
    pub fn new(alloc: Global) -> Application
        ensures { result ≡ record { location = [] } }
    {
        Application {
            location: Text::from_string(String::new(alloc)),
        }
    }
}

impl Servlet for Application {
    ghost servlet_step = { λ before call after. spec.Steps before.location call after.location };

    fn init(&mut self, alloc: Global, config: &Config) -> Init {
        let location = config.param("location").unwrap_or("@application");
        if !is_location(location.as_bytes()) {
            return Init::Failed;
        }
        match Text::copy_of(alloc, location) {
            Ok(location) => {
                self.location = location;
                Init::Ready
            }
            Err(_) => Init::NoMemory,
        }
    }

    fn service(&mut self, alloc: Global, exchange: &mut Exchange, _turn: u32) -> Step {
        if exchange.kind() != Kind::Request {
            return error(alloc, NOT_FOUND);
        }
        serve(alloc, exchange, self.location.as_str())
    }

    fn destroy(&mut self) {}
}

/// Returns whether a text is an internal location.
fn is_location(text: &[u8]) -> bool
    ensures { result ≡ spec.is_location text.now }
{
    match text {
        [b'@', name @ ..] => !name.is_empty() && is_name(name),
        _ => false,
    }
}

fn is_name(name: &[u8]) -> bool
    ensures { result ≡ list_all spec.is_name_byte name.now }
{
    name.iter().all(|b| is_name_byte(*b))
}

fn is_name_byte(b: u8) -> bool
    ensures { result ≡ spec.is_name_byte b }
{
    b.is_ascii_alphanumeric() || b == b'-' || b == b'_'
}

/// Hands a request of a client over.
fn serve(alloc: Global, exchange: &mut Exchange, location: &str) -> Step
    ensures handed { spec.ServesRequest location.now exchange.old result exchange.new }
    ensures reached { Reaches exchange.old exchange.new }
{
    step_of(alloc, hand_over(alloc, exchange, location))
}

/// Returns the step of a request that was handed over, or refused.
fn step_of(alloc: Global, done: Result<(), ExchangeFault>) -> Step
    ensures { spec.IsStepOf done result }
{
    match done {
        Ok(()) => Step::Done,
        Err(ExchangeFault::NoMemory) => Step::NoMemory,
        Err(fault) => error(alloc, fault.status()),
    }
}

/// Returns the step of an error with this status.
fn error(alloc: Global, status: u16) -> Step
    ensures { spec.IsError status result }
{
    match Text::copy_of(alloc, "the request is not handed over") {
        Ok(text) => Step::Error(status, text),
        Err(NoMemory) => Step::NoMemory,
    }
}
