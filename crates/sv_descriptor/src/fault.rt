//! The faults of a configuration file, and their places.

ghost use Rattle.std.specs.Prelude.{◌≡◌, Err};
ghost use Rattle.sv_text.specs.Gives.{Gives};
ghost use Rattle.sv_descriptor.specs.Fault as spec;
ghost use Rattle.sv_descriptor.specs.declared.fault.LocatedReadFault.TheVariants as located;
ghost use Rattle.sv_descriptor.specs.declared.fault.ReadFault.TheVariants.{NoMemory};
ghost use Rattle.sv_descriptor.specs.declared.fault.ValueStep.TheVariants.{Key, Item};

use std::alloc::{AllocError, AllocFailed, Global};
use std::error::Error;
use std::fmt;
use sv_text::{Listed, NoMemory as OutOfMemory, Text};

/// The reason why a configuration file was not read. It is printed as its fault, or as `no memory`.
#[derive(Debug, Drop)]
pub enum ReadFault {
    /// The file violates its format. This is the first fault in the format's order.
    Fault(DescriptorFault),
    /// Memory ran out while the file was read or its fault was named. The file may still be valid.
    NoMemory,
}

/// The first fault of a configuration file. It is printed as the code's name, a space and the key.
#[derive(Debug, Drop)]
pub struct DescriptorFault {
    /// The kind of the fault.
    pub code: FaultCode,
    /// The bare key of the faulty value. It is empty if the text is not TOML.
    pub key: Text,
}

/// The reason why a configuration file was not read, with its place.
#[derive(Debug, Drop)]
pub enum LocatedReadFault {
    /// The file violates its format. This is the first fault in the format's order.
    Fault(LocatedFault),
    /// Memory ran out while the file was read, or its fault or the fault's place was named. The file may still be
    /// valid.
    NoMemory,
}

/// The first fault of a configuration file, with the place of the faulty value.
#[derive(Debug, Drop)]
pub struct LocatedFault {
    /// The fault.
    pub fault: DescriptorFault,
    /// The steps from the file's table to the faulty value, outermost first; for a missing key to the table that lacks
    /// it. There are none for the file's table itself, and for a text that is not TOML.
    pub steps: Listed<ValueStep>,
}

/// A step from a table or a list to a value in it.
#[derive(Debug, Drop)]
pub enum ValueStep {
    /// To the value at this key of a table.
    Key(Text),
    /// To this item of a list, counted from 0.
    Item(usize),
}

/// A kind of fault in a configuration file. It is printed as its name.
#[derive(Clone, Copy, Debug, PartialEq, Eq)]
pub enum FaultCode {
    /// The text is not TOML.
    NotToml = 1,
    /// The table has a key that is not part of its format.
    UnknownKey = 2,
    /// The table lacks a required key.
    MissingKey = 3,
    /// The value at the key has the wrong type.
    WrongType = 4,
    /// The text is not a URL pattern.
    BadPattern = 5,
    /// Two servlet mappings have the same URL pattern, or one mapping has it twice.
    DuplicatePattern = 6,
    /// No servlet with this name is declared.
    UnknownServlet = 7,
    /// No filter with this name is declared.
    UnknownFilter = 8,
    /// A web resource collection lists both methods and omitted methods.
    BothMethodLists = 9,
    /// A declared role has a reserved name, `*` or `**`.
    ReservedRole = 10,
    /// The session timeout is too long.
    BadTimeout = 11,
    /// The value is out of range, or not one of the known values.
    BadValue = 12,
    /// The name has been declared before.
    DuplicateName = 13,
    /// The list is longer than its limit.
    TooMany = 14,
}

impl FaultCode {
    ghost use Rattle.sv_descriptor.specs.Fault.{number};

    /// Returns the number of the code, from 1 to 14.
    pub fn number(self) -> u8
        ensures { result ≡ number self }
    {
        self as u8
    }
}

impl fmt::Display for FaultCode {
    ghost use Rattle.std.specs.Prelude.{Some};
    ghost use Rattle.sv_descriptor.specs.Fault.{code_name};

    ghost output = { λ code. Some (code_name code) };

    fn fmt<W: fmt::Write>(&self, f: &mut fmt::Formatter<W>) -> fmt::Result {
        f.write_str(match self {
            FaultCode::NotToml => "NotToml",
            FaultCode::UnknownKey => "UnknownKey",
            FaultCode::MissingKey => "MissingKey",
            FaultCode::WrongType => "WrongType",
            FaultCode::BadPattern => "BadPattern",
            FaultCode::DuplicatePattern => "DuplicatePattern",
            FaultCode::UnknownServlet => "UnknownServlet",
            FaultCode::UnknownFilter => "UnknownFilter",
            FaultCode::BothMethodLists => "BothMethodLists",
            FaultCode::ReservedRole => "ReservedRole",
            FaultCode::BadTimeout => "BadTimeout",
            FaultCode::BadValue => "BadValue",
            FaultCode::DuplicateName => "DuplicateName",
            FaultCode::TooMany => "TooMany",
        })
    }
}

impl Error for FaultCode {}

impl fmt::Display for DescriptorFault {
    ghost use Rattle.std.specs.Prelude.{Some};
    ghost use Rattle.sv_descriptor.specs.Fault.{descriptor_fault_text};

    ghost output = { λ fault. Some (descriptor_fault_text fault) };

    fn fmt<W: fmt::Write>(&self, f: &mut fmt::Formatter<W>) -> fmt::Result {
        write!(f, "{} {}", self.code, self.key)
    }
}

impl Error for DescriptorFault {}

impl fmt::Display for ReadFault {
    ghost use Rattle.std.specs.Prelude.{Some};
    ghost use Rattle.sv_descriptor.specs.Fault.{read_fault_text};

    ghost output = { λ fault. Some (read_fault_text fault) };

    fn fmt<W: fmt::Write>(&self, f: &mut fmt::Formatter<W>) -> fmt::Result {
        match self {
            ReadFault::Fault(fault) => write!(f, "{fault}"),
            ReadFault::NoMemory => f.write_str("no memory"),
        }
    }
}

impl Error for ReadFault {}

impl From<OutOfMemory> for ReadFault {
    ghost from_gives = { λ _ fault. fault ≡ NoMemory };

    fn from(_refused: OutOfMemory) -> ReadFault {
        ReadFault::NoMemory
    }
}

impl From<LocatedReadFault> for ReadFault {
    ghost from_gives = { λ located fault. fault ≡ spec.plain located };

    fn from(located: LocatedReadFault) -> ReadFault {
        match located {
            LocatedReadFault::Fault(located) => ReadFault::Fault(located.fault),
            LocatedReadFault::NoMemory => ReadFault::NoMemory,
        }
    }
}

impl From<OutOfMemory> for LocatedReadFault {
    ghost from_gives = { λ _ fault. fault ≡ located.NoMemory };

    fn from(_refused: OutOfMemory) -> LocatedReadFault {
        LocatedReadFault::NoMemory
    }
}

impl From<AllocError> for LocatedReadFault {
    ghost from_gives = { λ _ fault. fault ≡ located.NoMemory };

    fn from(_refused: AllocError) -> LocatedReadFault {
        LocatedReadFault::NoMemory
    }
}

impl<T: Drop> From<AllocFailed<T>> for LocatedReadFault {
    ghost from_gives = { λ _ fault. fault ≡ located.NoMemory };

    fn from(_refused: AllocFailed<T>) -> LocatedReadFault {
        LocatedReadFault::NoMemory
    }
}

/// Refuses the table or value that is being read because of a fault at a key.
///
/// # Errors
/// Always: [`LocatedReadFault::NoMemory`] if there was no memory to name the key, and the fault without steps otherwise.
pub fn refuse<T>(alloc: Global, code: FaultCode, key: &str) -> Result<T, LocatedReadFault>
    ensures { Gives spec.located_fault result (spec.refuse code key.now) }
{
    let key = Text::copy_of(alloc, key)?;
    Err(LocatedReadFault::Fault(LocatedFault {
        fault: DescriptorFault { code, key },
        steps: Listed::from_vec(Vec::new(alloc)),
    }))
}

/// Returns the result of reading the value at a key of a table. A fault of the value gets the step to it in front.
pub fn within_key<T: Drop>(
    alloc: Global,
    key: &str,
    read: Result<T, LocatedReadFault>,
) -> Result<T, LocatedReadFault>
    ensures { (answer : spec.Located T) → Gives spec.located_fault read answer → Gives spec.located_fault result (spec.within (Key key.now) answer) }
{
    match read {
        Ok(value) => Ok(value),
        Err(LocatedReadFault::Fault(located)) => refuse_below_key(alloc, key, located),
        Err(LocatedReadFault::NoMemory) => Err(LocatedReadFault::NoMemory),
    }
}

/// Returns the result of reading an item of a list. A fault of the item gets the step to it in front.
pub fn within_item<T: Drop>(
    item: usize,
    read: Result<T, LocatedReadFault>,
) -> Result<T, LocatedReadFault>
    ensures { (answer : spec.Located T) → Gives spec.located_fault read answer → Gives spec.located_fault result (spec.within (Item item) answer) }
{
    match read {
        Ok(value) => Ok(value),
        Err(LocatedReadFault::Fault(located)) => refuse_below(ValueStep::Item(item), located),
        Err(LocatedReadFault::NoMemory) => Err(LocatedReadFault::NoMemory),
    }
}

fn refuse_below_key<T>(
    alloc: Global,
    key: &str,
    located: LocatedFault,
) -> Result<T, LocatedReadFault>
    ensures { Gives spec.located_fault result (spec.within (Key key.now) (Err located)) }
{
    let step = ValueStep::Key(Text::copy_of(alloc, key)?);
    refuse_below(step, located)
}

/// Refuses a file because of a fault that has one more step in front.
fn refuse_below<T>(step: ValueStep, located: LocatedFault) -> Result<T, LocatedReadFault>
    ensures { Gives spec.located_fault result (spec.within step (Err located)) }
{
    let LocatedFault { fault, steps } = located;
    let mut steps = steps.into_vec();
    steps.insert(0, step)?;
    Err(LocatedReadFault::Fault(LocatedFault {
        fault,
        steps: Listed::from_vec(steps),
    }))
}

/// Refuses a file because of a fault at a key of an item of a list in the file's table.
///
/// # Errors
/// Always: [`LocatedReadFault::NoMemory`] if there was no memory to name the place, and the fault otherwise.
pub fn refuse_item(
    alloc: Global,
    code: FaultCode,
    list: &str,
    item: usize,
    key: &str,
) -> Result<(), LocatedReadFault>
    ensures { Gives spec.located_fault result (spec.refuse_at code key.now (spec.item_key list.now item key.now)) }
{
    let refused = within_key(alloc, key, refuse(alloc, code, key));
    within_key(alloc, list, within_item(item, refused))
}
