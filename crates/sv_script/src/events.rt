//! The events that the lines of a script ask for.

ghost use Rattle.std.specs.Prelude.{◌≡◌};
ghost use Rattle.std.specs.Option.{option_map};
ghost use Rattle.sv_script.specs.Asked as spec;
ghost use Rattle.sv_run.specs.Seen.{happening_of};

use crate::line::ScriptLine;
use sv_run::Happening;

/// Returns the event that a line asks for at a time, if any.
pub(crate) fn event_of(said: &ScriptLine, moment: u64) -> Option<Happening<'_>>
    ensures { option_map happening_of result ≡ spec.event_of moment said.now }
{
    match said {
        ScriptLine::Nothing => None,
        ScriptLine::Open(connection) => Some(Happening::Opened {
            connection: *connection,
        }),
        ScriptLine::Send(connection, bytes) => Some(Happening::Piece {
            connection: *connection,
            bytes: bytes.as_slice(),
            moment,
        }),
        ScriptLine::End(connection) => Some(Happening::Ended {
            connection: *connection,
        }),
        ScriptLine::Lost(connection) => Some(Happening::Lost {
            connection: *connection,
        }),
        ScriptLine::Tick(told) => Some(Happening::Tick { moment: *told }),
        ScriptLine::Edit(context, edit) => Some(Happening::Edit {
            context: context.as_str(),
            edit,
        }),
    }
}

/// Returns the time after a line: the last time that a line set.
pub(crate) fn moment_behind(said: &ScriptLine, moment: u64) -> u64
    ensures { result ≡ spec.moment_behind moment said.now }
{
    match said {
        ScriptLine::Tick(told) => *told,
        _ => moment,
    }
}
