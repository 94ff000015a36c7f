//! The place of a value in a configuration file.

ghost use Rattle.std.specs.Prelude.{IfOk};
ghost use Rattle.sv_text.specs.Gives.{GivesAnswer};
ghost use Rattle.sv_descriptor.specs.Fault.{item_key};
ghost use Rattle.sv_program.specs.FilePlace as spec;

use crate::file_line::front;
use crate::place::{column_behind, line_behind};
use crate::value_place::{Spot, spot_of};
use std::alloc::Global;
use std::marker::Model;
use sv_descriptor::ValueStep;
use sv_text::{Listed, NoMemory, Text};
use sv_wire::{History, Piece};

/// The place of a value in a configuration file. Contracts see the name and the text of the file, and the steps to the
/// value.
#[derive(Drop)]
pub struct FilePlace {
    file: Text,
    steps: Listed<ValueStep>,
    shown: Text,
    text: History,
}

impl Model for FilePlace {
    ghost use Rattle.sv_program.specs.FilePlace.{IsPlaceText, ValueInFile};

    ghost Value = { ValueInFile };

    ghost view = { λ place. record { file = place.file; text = place.text.bytes; steps = place.steps } };

    ghost invariant = { λ place. IsPlaceText place.file place.text.bytes place.steps place.shown };
}

impl FilePlace {
    ghost use Rattle.std.specs.Prelude.{◌≡◌};
    ghost use Rattle.sv_text.specs.Gives.{GivesAnswer};
    ghost use Rattle.sv_program.specs.FilePlace.{IsPlaceText};

    /// Returns the place of the value after these steps in the file of this name and text.
    pub fn of(
        alloc: Global,
        file: &str,
        text: &str,
        steps: Listed<ValueStep>,
    ) -> Result<FilePlace, NoMemory>
        ensures { GivesAnswer result (record { file = file.now; text = text.now; steps = steps }) }
    {
        let shown = place_text(alloc, file, text, steps.as_slice())?;
        let file = Text::copy_of(alloc, file)?;
        let text = History::new().and(&Piece {
            bytes: text.as_bytes(),
        });
        Ok(FilePlace {
            file,
            steps,
            shown,
            text,
        })
    }

    /// Returns the place as it is printed: `FILE:LINE:COLUMN`, or as much of it as is known.
    pub fn text(&self) -> &str
        ensures { IsPlaceText self.now.file self.now.text self.now.steps result.now }
    {
        self.shown.as_str()
    }
}

/// Returns the place of the value after these steps in the file of this name and text, as it is printed:
/// `FILE:LINE:COLUMN`, or as much of it as is known.
pub fn place_text(
    alloc: Global,
    file: &str,
    text: &str,
    steps: &[ValueStep],
) -> Result<Text, NoMemory>
    ensures { IfOk result (spec.IsPlaceText file.now text.now steps.now) }
{
    let spot = spot_of(alloc, text.as_bytes(), steps)?;
    let place = spot_text(alloc, text.as_bytes(), spot)?;
    let shown = format!(in alloc; "{file}{place}")?;
    Ok(Text::from_string(shown))
}

/// Returns the line and the column of a place in the text, after colons, as far as they are known.
pub(crate) fn spot_text(alloc: Global, text: &[u8], spot: Spot) -> Result<Text, NoMemory>
    ensures { GivesAnswer result (spec.spot_text text.now spot) }
{
    match spot {
        Spot::Nowhere => Text::copy_of(alloc, ""),
        Spot::Line(line) => Ok(Text::from_string(format!(in alloc; ":{line}")?)),
        Spot::Byte(at) => byte_text(alloc, front(text, at)),
    }
}

/// Returns the line and the column of the place after these bytes, after colons.
fn byte_text(alloc: Global, before: &[u8]) -> Result<Text, NoMemory>
    ensures { GivesAnswer result (spec.byte_text before.now) }
{
    let line = line_behind(before);
    let column = column_behind(before);
    let text = format!(in alloc; ":{line}:{column}")?;
    Ok(Text::from_string(text))
}

/// Returns the steps to a key of an item of a list in the file's table.
pub fn item_steps(
    alloc: Global,
    list: &str,
    item: usize,
    key: &str,
) -> Result<Listed<ValueStep>, NoMemory>
    ensures { GivesAnswer result (item_key list.now item key.now) }
{
    let mut steps = Vec::new(alloc);
    steps.push(ValueStep::Key(Text::copy_of(alloc, list)?))?;
    steps.push(ValueStep::Item(item))?;
    steps.push(ValueStep::Key(Text::copy_of(alloc, key)?))?;
    Ok(Listed::from_vec(steps))
}
