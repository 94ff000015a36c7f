//! Faults of creating a descriptor's components.

ghost use Rattle.std.specs.Prelude.{◌≡◌, Some};
ghost use Rattle.sv_deployments.specs.ClassFault.{fault_text};

use crate::component_place::ComponentPlace;
use std::alloc::{AllocError, AllocFailed};
use std::error::Error;
use std::fmt;
use sv_text::{NoMemory, Text};

/// The classes of the program, as the second line of a fault lists them.
pub const CLASSES: &str = "\
the servlets Who, Paths, Nest, Go, Fail, Err, Gone, Keep, Bye, Out, Stream and Application, the filters Mark, Halt and Bad, \
and the listener Log";

/// The reason why the components of a descriptor were not created. Its text is the name of the class, or `no memory`.
#[derive(Debug, Drop)]
pub enum ClassFault {
    /// The program has no such class for the component at this place of the descriptor. This is the first unknown class
    /// of the servlets, then of the filters, then of the listeners.
    UnknownClass(Text, ComponentPlace),
    /// Memory ran out. The classes may or may not be known.
    NoMemory,
}

impl fmt::Display for ClassFault {
    ghost output = { λ fault. Some (fault_text fault) };

    fn fmt<W: fmt::Write>(&self, f: &mut fmt::Formatter<W>) -> fmt::Result {
        f.write_str(match self {
            ClassFault::UnknownClass(class, _) => class.as_str(),
            ClassFault::NoMemory => "no memory",
        })
    }
}

impl Error for ClassFault {}

impl From<NoMemory> for ClassFault {
    ghost use Rattle.sv_deployments.specs.declared.class_fault.ClassFault.TheVariants as fault;

    ghost from_gives = { λ _ e. e ≡ fault.NoMemory };

    fn from(_refused: NoMemory) -> ClassFault {
        ClassFault::NoMemory
    }
}

impl From<AllocError> for ClassFault {
    ghost use Rattle.sv_deployments.specs.declared.class_fault.ClassFault.TheVariants as fault;

    ghost from_gives = { λ _ e. e ≡ fault.NoMemory };

    fn from(_refused: AllocError) -> ClassFault {
        ClassFault::NoMemory
    }
}

impl<T: Drop> From<AllocFailed<T>> for ClassFault {
    ghost use Rattle.sv_deployments.specs.declared.class_fault.ClassFault.TheVariants as fault;

    ghost from_gives = { λ _ e. e ≡ fault.NoMemory };

    fn from(_refused: AllocFailed<T>) -> ClassFault {
        ClassFault::NoMemory
    }
}
