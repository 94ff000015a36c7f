//! The fault of a configuration file, with the line that says where it is.

use crate::line::detail_line;
use crate::toml_value::printed_key;
use std::alloc::Global;
use std::marker::Model;
use sv_descriptor::{DescriptorFault, LocatedFault};
use sv_text::{NoMemory, Text};
use sv_wire::{History, Piece};

/// The fault of a configuration file. Contracts see the name and the text of the file, and the fault with its place.
#[derive(Drop)]
pub struct FileFault {
    file: Text,
    found: LocatedFault,
    detail: Text,
    key: Text,
    text: History,
}

impl Model for FileFault {
    ghost use Rattle.std.specs.Prelude.{◌≡◌};
    ghost use Rattle.sv_program.specs.Detail.{FaultInFile, IsDetail};
    ghost use Rattle.sv_program.specs.Shown.{printed_key};

    ghost Value = { FaultInFile };

    ghost view = { λ faulty. record { file = faulty.file; text = faulty.text.bytes; found = faulty.found } };

    ghost invariant = { λ faulty. IsDetail (record { file = faulty.file; text = faulty.text.bytes; found = faulty.found }) faulty.detail × (faulty.key ≡ printed_key faulty.found.fault.key) };
}

impl FileFault {
    ghost use Rattle.std.specs.Prelude.{◌≡◌};
    ghost use Rattle.sv_text.specs.Gives.{GivesAnswer};
    ghost use Rattle.sv_program.specs.Detail.{IsDetail};
    ghost use Rattle.sv_program.specs.Shown.{printed_key};

    /// Returns the fault of the file of this name and text, with its line.
    pub(crate) fn of(
        alloc: Global,
        file: &str,
        text: &str,
        found: LocatedFault,
    ) -> Result<FileFault, NoMemory>
        ensures { GivesAnswer result (record { file = file.now; text = text.now; found = found }) }
    {
        let detail = detail_line(alloc, file, text, &found)?;
        let key = printed_key(alloc, found.fault.key.as_str())?;
        let file = Text::copy_of(alloc, file)?;
        let text = History::new().and(&Piece {
            bytes: text.as_bytes(),
        });
        Ok(FileFault {
            file,
            found,
            detail,
            key,
            text,
        })
    }

    /// Returns the fault.
    pub fn fault(&self) -> &DescriptorFault
        ensures { result.now ≡ self.now.found.fault }
    {
        &self.found.fault
    }

    /// Returns the key of the fault as it is printed: control characters are escaped.
    pub fn key(&self) -> &str
        ensures { result.now ≡ printed_key self.now.found.fault.key }
    {
        self.key.as_str()
    }

    /// Returns the line that says where the fault is, without its line feed: `  FILE:LINE: PROBLEM: VALUE`. The number
    /// of the line is left out if it is not known, and the value if it is secret or the problem is not about a value.
    pub fn detail(&self) -> &str
        ensures { IsDetail self.now result.now }
    {
        self.detail.as_str()
    }
}
