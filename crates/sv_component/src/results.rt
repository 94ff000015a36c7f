//! Results of component calls, as the journal records them.

ghost use Rattle.std.specs.Prelude.{◌≡◌};
ghost use Rattle.sv_text.specs.Gives.{GivesAnswer};
ghost use Rattle.sv_component.specs.Noted.{gate_answer, init_answer, step_answer};

use crate::answers::{Gate, Init, Step};
use std::alloc::Global;
use sv_journal::Answer;
use sv_text::{NoMemory, Text};

/// Returns the journal's record of the result of an `init`.
pub fn init_answer(answer: Init) -> Answer
    ensures { result ≡ init_answer answer }
{
    match answer {
        Init::Ready => Answer::Ready,
        Init::Unavailable => Answer::Unavailable,
        Init::Failed => Answer::Failed(None),
        Init::NoMemory => Answer::NoMemory,
    }
}

/// Returns the journal's record of the result of a `service`.
pub fn step_answer(alloc: Global, step: &Step) -> Result<Answer, NoMemory>
    ensures { GivesAnswer result (step_answer step.now) }
{
    Ok(match step {
        Step::Done => Answer::Done,
        Step::Forward(path) => Answer::Forward(Text::copy_of(alloc, path.as_str())?),
        Step::Include(path) => Answer::Include(Text::copy_of(alloc, path.as_str())?),
        Step::Error(code, _) => Answer::Error(*code),
        Step::Failed(kind, _) => Answer::Failed(Some(Text::copy_of(alloc, kind.as_str())?)),
        Step::Unavailable(_) => Answer::Unavailable,
        Step::NoMemory => Answer::NoMemory,
    })
}

/// Returns the journal's record of the result of a `before`.
pub fn gate_answer(alloc: Global, gate: &Gate) -> Result<Answer, NoMemory>
    ensures { GivesAnswer result (gate_answer gate.now) }
{
    Ok(match gate {
        Gate::Pass => Answer::Pass,
        Gate::Stop => Answer::Stop,
        Gate::Failed(kind, _) => Answer::Failed(Some(Text::copy_of(alloc, kind.as_str())?)),
        Gate::NoMemory => Answer::NoMemory,
    })
}
