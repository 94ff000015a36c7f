//! Faults of a servlet or a filter.

ghost use Rattle.std.specs.Prelude.{◌≡◌};
ghost use Rattle.sv_text.specs.Gives.{GivesAnswer};
ghost use Rattle.sv_exchange.specs.Fault.{fault_name};
ghost use Rattle.sv_web.specs.declared.fault.Fault.TheVariants as faults;
ghost use Rattle.sv_web.specs.Fault.{IsGateOf, IsStepOf, failed, failure_of, fault_from, shut, shut_by};

use std::alloc::{AllocError, AllocFailed, Global};
use sv_component::{ExchangeFault, Gate, Step};
use sv_text::{NoMemory, Text};

/// A fault that prevents a servlet's response. It is the error of the functions that `service` calls, so that `?`
/// passes it to [`step_of`], which makes a step of it.
#[derive(Drop)]
pub enum Fault {
    /// Out of memory.
    NoMemory,
    /// A call of the exchange was refused, but not for lack of memory.
    Refused(ExchangeFault),
    /// A text is not a valid location for a redirect.
    BadLocation,
    /// A name, a value or a path is not valid in a cookie.
    BadCookie,
    /// The response is an error, with its code and text.
    Error(u16, Text),
    /// The servlet failed, with the kind of the failure, which selects an error page, and its text.
    Failed(Text, Text),
}

/// Returns the step of a servlet: the given one, or that of the fault (Jakarta Servlet 6.0, sections 2.3.3 and 10.9).
/// Running out of memory is [`Step::NoMemory`], which stops the container, and an error is [`Step::Error`]. Any other
/// fault fails only the request, with a response of status 500 or the error page of its kind. The kind of a refused
/// call is the name of its [`ExchangeFault`], such as `TooLarge`; the other kinds are `BadLocation` and `BadCookie`. If
/// there is no memory for these texts, the step is [`Step::NoMemory`].
pub fn step_of(alloc: Global, answered: Result<Step, Fault>) -> Step
    ensures { IsStepOf answered result }
{
    match answered {
        Ok(step) => step,
        Err(fault) => match failure_of(alloc, fault) {
            Ok(step) => step,
            Err(NoMemory) => Step::NoMemory,
        },
    }
}

// Returns the step of a fault.
fn failure_of(alloc: Global, fault: Fault) -> Result<Step, NoMemory>
    ensures { GivesAnswer result (failure_of fault) }
{
    match fault {
        Fault::NoMemory => Ok(Step::NoMemory),
        Fault::Refused(fault) => failed(alloc, name_of(fault)),
        Fault::BadLocation => failed(alloc, "BadLocation"),
        Fault::BadCookie => failed(alloc, "BadCookie"),
        Fault::Error(code, text) => Ok(Step::Error(code, text)),
        Fault::Failed(kind, text) => Ok(Step::Failed(kind, text)),
    }
}

/// Returns the gate of a filter: the given one, or that of the fault, as in [`step_of`] (Jakarta Servlet 6.0, sections
/// 6.2 and 10.9). A filter cannot respond with an error code. [`Fault::Error`] is a failure of the kind `Error`, with
/// the error's text.
pub fn gate_of(alloc: Global, answered: Result<Gate, Fault>) -> Gate
    ensures { IsGateOf answered result }
{
    match answered {
        Ok(gate) => gate,
        Err(fault) => match shut_by(alloc, fault) {
            Ok(gate) => gate,
            Err(NoMemory) => Gate::NoMemory,
        },
    }
}

// Returns the gate of a fault.
fn shut_by(alloc: Global, fault: Fault) -> Result<Gate, NoMemory>
    ensures { GivesAnswer result (shut_by fault) }
{
    match fault {
        Fault::NoMemory => Ok(Gate::NoMemory),
        Fault::Refused(fault) => shut(alloc, name_of(fault)),
        Fault::BadLocation => shut(alloc, "BadLocation"),
        Fault::BadCookie => shut(alloc, "BadCookie"),
        Fault::Error(_, text) => Ok(Gate::Failed(Text::copy_of(alloc, "Error")?, text)),
        Fault::Failed(kind, text) => Ok(Gate::Failed(kind, text)),
    }
}

// Returns a filter's failure of this kind, with the kind as its text.
fn shut(alloc: Global, kind: &str) -> Result<Gate, NoMemory>
    ensures { GivesAnswer result (shut kind.now) }
{
    let text = Text::copy_of(alloc, kind)?;
    Ok(Gate::Failed(Text::copy_of(alloc, kind)?, text))
}

// Returns a failure of this kind, with the kind as its text.
fn failed(alloc: Global, kind: &str) -> Result<Step, NoMemory>
    ensures { GivesAnswer result (failed kind.now) }
{
    let text = Text::copy_of(alloc, kind)?;
    Ok(Step::Failed(Text::copy_of(alloc, kind)?, text))
}

// Returns the name of a refusal.
fn name_of(fault: ExchangeFault) -> &'static str
    ensures { result.now ≡ fault_name fault }
{
    match fault {
        ExchangeFault::Committed => "Committed",
        ExchangeFault::TooManySessions => "TooManySessions",
        ExchangeFault::SerialSpent => "SerialSpent",
        ExchangeFault::NoSession => "NoSession",
        ExchangeFault::NoMemory => "NoMemory",
        ExchangeFault::BadHeader => "BadHeader",
        ExchangeFault::TooLarge => "TooLarge",
    }
}

impl From<ExchangeFault> for Fault {
    ghost from_gives = { λ refused fault. fault ≡ fault_from refused };

    fn from(refused: ExchangeFault) -> Fault {
        match refused {
            ExchangeFault::NoMemory => Fault::NoMemory,
            refused => Fault::Refused(refused),
        }
    }
}

impl From<NoMemory> for Fault {
    ghost from_gives = { λ _ fault. fault ≡ faults.NoMemory };

    fn from(_error: NoMemory) -> Fault {
        Fault::NoMemory
    }
}

impl From<AllocError> for Fault {
    ghost from_gives = { λ _ fault. fault ≡ faults.NoMemory };

    fn from(_error: AllocError) -> Fault {
        Fault::NoMemory
    }
}

impl<T: Drop> From<AllocFailed<T>> for Fault {
    ghost from_gives = { λ _ fault. fault ≡ faults.NoMemory };

    fn from(_error: AllocFailed<T>) -> Fault {
        Fault::NoMemory
    }
}
