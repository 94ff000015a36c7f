//! An explanation in sentences.

ghost use Rattle.std.specs.Prelude.{◌≡◌};
ghost use Rattle.sv_uri.specs.Fault as paths;
ghost use Rattle.sv_wire.specs.WireFault.{fault_name};
ghost use Rattle.sv_text.specs.Gives.{GivesAnswer};
ghost use Rattle.sv_explanation.specs.Text as spec;
ghost use Rattle.sv_explanation.specs.declared.explanation.Explanation.TheVariants as explanations;

use crate::answer_lines::{answer_lines, error_line, login_lines};
use crate::explanation::{Explanation, JudgedRequest, ServedRequest, Treatment};
use crate::page::Page;
use crate::reason_lines::{caller_line, constraint_lines, pattern_line, reason_line};
use crate::site_context::Asked;
use crate::statuses::NOT_FOUND;
use std::alloc::Global;
use sv_report::escaped::escaped;
use sv_report::number_text;
use sv_text::{NoMemory, Text};
use sv_uri::fault::PathFault;
use sv_uri::shown_context;
use sv_wire::WireFault;

/// Returns an explanation of the request in sentences, one a line. Control characters are escaped. A line has at most
/// 100 bytes unless its names are long.
///
/// # Errors
/// `NoMemory` if memory runs out.
pub fn explanation_text(
    alloc: Global,
    asked: &Asked<'_>,
    explanation: &Explanation,
) -> Result<Text, NoMemory>
    ensures { GivesAnswer result (spec.explanation_text asked.now.method.now asked.now.target.now explanation.now) }
{
    match explanation {
        Explanation::Unread(fault) => fault_lines(alloc, asked, *fault),
        Explanation::OfServer => Text::copy_of(
            alloc,
            "The target * asks for the server itself.\nThe server answers 200 without a body.\n",
        ),
        Explanation::BadPath(fault) => path_fault_lines(alloc, asked.target, *fault),
        Explanation::NoContext(path) => no_context_lines(alloc, asked.target, path.as_str()),
        Explanation::InContext(request) => {
            served_lines(alloc, asked.method, asked.target, request)
        }
    }
}

fn fault_lines(alloc: Global, asked: &Asked<'_>, fault: WireFault) -> Result<Text, NoMemory>
    ensures { GivesAnswer result (spec.explanation_text asked.now.method.now asked.now.target.now (explanations.Unread fault)) }
{
    let name = wire_fault_name(alloc, fault)?;
    let status = number_text(alloc, u64::from(fault.status()))?;
    unread_lines(alloc, asked, name.as_str(), status.as_str())
}

/// Returns the sentences on a fault with this name and this status.
fn unread_lines(
    alloc: Global,
    asked: &Asked<'_>,
    name: &str,
    status: &str,
) -> Result<Text, NoMemory>
    ensures { GivesAnswer result (spec.unread_lines asked.now.method.now asked.now.target.now name.now status.now) }
{
    let method = escaped(alloc, asked.method)?;
    let target = escaped(alloc, asked.target)?;
    let text = [
        "The server refuses ",
        method.as_str(),
        " for the target ",
        target.as_str(),
        ": ",
        name,
        ".\nIt answers ",
        status,
        ".\n",
    ]
    .concat(alloc)?;
    Ok(Text::from_string(text))
}

fn wire_fault_name(alloc: Global, fault: WireFault) -> Result<Text, NoMemory>
    ensures { GivesAnswer result (fault_name fault) }
{
    Ok(Text::from_string(format!(in alloc; "{fault}")?))
}

fn path_fault_name(alloc: Global, fault: PathFault) -> Result<Text, NoMemory>
    ensures { GivesAnswer result (paths.fault_name fault) }
{
    Ok(Text::from_string(format!(in alloc; "{fault}")?))
}

fn path_fault_lines(alloc: Global, target: &str, fault: PathFault) -> Result<Text, NoMemory>
    ensures { GivesAnswer result (spec.bad_path_lines target.now (paths.fault_name fault)) }
{
    let name = path_fault_name(alloc, fault)?;
    bad_path_lines(alloc, target, name.as_str())
}

/// Returns the sentences on a target without a canonical path, by the name of its fault.
fn bad_path_lines(alloc: Global, target: &str, name: &str) -> Result<Text, NoMemory>
    ensures { GivesAnswer result (spec.bad_path_lines target.now name.now) }
{
    let target = escaped(alloc, target)?;
    let text = [
        "The target ",
        target.as_str(),
        " has no canonical path: ",
        name,
        ".\nThe server answers 400.\n",
    ]
    .concat(alloc)?;
    Ok(Text::from_string(text))
}

fn no_context_lines(alloc: Global, target: &str, path: &str) -> Result<Text, NoMemory>
    ensures { GivesAnswer result (spec.no_context_lines target.now path.now) }
{
    let line = path_line(alloc, target, path)?;
    let text = [
        line.as_str(),
        "No context serves it.\nThe server answers 404.\n",
    ]
    .concat(alloc)?;
    Ok(Text::from_string(text))
}

fn path_line(alloc: Global, target: &str, path: &str) -> Result<Text, NoMemory>
    ensures { GivesAnswer result (spec.path_line target.now path.now) }
{
    let target = escaped(alloc, target)?;
    let path = escaped(alloc, path)?;
    let text = [
        "The target ",
        target.as_str(),
        " has the canonical path ",
        path.as_str(),
        ".\n",
    ]
    .concat(alloc)?;
    Ok(Text::from_string(text))
}

fn served_lines(
    alloc: Global,
    method: &str,
    target: &str,
    request: &ServedRequest,
) -> Result<Text, NoMemory>
    ensures { GivesAnswer result (spec.served_lines method.now target.now request.now) }
{
    let path = path_line(alloc, target, request.canonical.as_str())?;
    let context = context_line(alloc, request)?;
    let treatment = treatment_lines(alloc, request.file.as_str(), method, &request.treatment)?;
    let text = [path.as_str(), context.as_str(), treatment.as_str()].concat(alloc)?;
    Ok(Text::from_string(text))
}

fn context_line(alloc: Global, request: &ServedRequest) -> Result<Text, NoMemory>
    ensures { GivesAnswer result (spec.context_line request.now) }
{
    let context = escaped(alloc, shown_context(request.context.as_str()))?;
    let file = escaped(alloc, request.file.as_str())?;
    let path = escaped(alloc, request.path.as_str())?;
    let text = [
        "The context ",
        context.as_str(),
        " (",
        file.as_str(),
        ") serves it, as ",
        path.as_str(),
        ".\n",
    ]
    .concat(alloc)?;
    Ok(Text::from_string(text))
}

fn treatment_lines(
    alloc: Global,
    file: &str,
    method: &str,
    treatment: &Treatment,
) -> Result<Text, NoMemory>
    ensures { GivesAnswer result (spec.treatment_lines file.now method.now treatment.now) }
{
    match treatment {
        Treatment::Hidden(page) => hidden_lines(alloc, page),
        Treatment::LoginPost(answers) => login_lines(alloc, answers),
        Treatment::Judged(request) => judged_lines(alloc, file, method, request),
    }
}

fn hidden_lines(alloc: Global, page: &Option<Page>) -> Result<Text, NoMemory>
    ensures { GivesAnswer result (spec.hidden_lines page.now) }
{
    let error = error_line(alloc, NOT_FOUND, page)?;
    let text = ["Its folder is hidden from clients.\n", error.as_str()].concat(alloc)?;
    Ok(Text::from_string(text))
}

fn judged_lines(
    alloc: Global,
    file: &str,
    method: &str,
    request: &JudgedRequest,
) -> Result<Text, NoMemory>
    ensures { GivesAnswer result (spec.judged_lines file.now method.now request.now) }
{
    let caller = caller_line(alloc, &request.caller)?;
    let pattern = pattern_line(alloc, &request.decision.why().pattern)?;
    let constraints = constraint_lines(alloc, file, method, request.constraints.as_slice())?;
    let reason = reason_line(alloc, method, &request.caller, &request.decision)?;
    let answer = answer_lines(alloc, &request.answer)?;
    let text = [
        caller.as_str(),
        pattern.as_str(),
        constraints.as_str(),
        reason.as_str(),
        answer.as_str(),
    ]
    .concat(alloc)?;
    Ok(Text::from_string(text))
}
