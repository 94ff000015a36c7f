//! A context with its constraints: what a request without a caller may not get.

ghost use Rattle.std.specs.Prelude.{◌≡◌, ◌++◌, codes};
ghost use Rattle.sv_text.specs.Gives.{GivesAnswer};
ghost use Rattle.sv_uri.specs.Canonical.{canonical};
ghost use Rattle.sv_findings.specs.LoginNeeds as spec;

use crate::reach::Reaches;
use std::alloc::Global;
use sv_constraints::{Cause, Constraint, Decision, Rules, decide_plain};
use sv_mapping::{is_at_or_below, is_protected, path_within};
use sv_text::{NoMemory, Text};
use sv_uri::fault::{CanonFault, PathFault};
use sv_uri::{canon, location};

/// A context beside others, with the constraints that guard its paths.
#[derive(Drop)]
pub struct GuardedContext<'r, 'c> {
    /// Which paths the context serves.
    pub reaches: &'r Reaches<'r>,
    /// Its constraints.
    pub constraints: &'c [Constraint],
    /// Their rules.
    pub rules: &'c Rules,
}

impl<'r, 'c> GuardedContext<'r, 'c> {
    /// Returns the path of a relative reference, without its query and its fragment, in a folder of the context, if a
    /// request without a caller may not get it.
    ///
    /// # Errors
    /// `NoMemory` if memory runs out.
    pub fn needed_in(
        &self,
        alloc: Global,
        folder: &str,
        relative: &str,
    ) -> Result<Option<Text>, NoMemory>
        ensures { GivesAnswer result (spec.needed_at self.now.reaches.now.0 self.now.reaches.now.1 self.now.constraints.now self.now.rules.now
            (spec.target_in self.now.reaches.now.1 folder.now relative.now)) }
    {
        let target = target_in(alloc, self.reaches.context(), folder, relative)?;
        self.needed_at(alloc, target.as_str())
    }

    /// Returns the path of a target within the context, if a request without a caller may not get it. Paths in hidden
    /// folders are left out: nobody may get them (Jakarta Servlet 6.0, section 10.5).
    ///
    /// # Errors
    /// `NoMemory` if memory runs out.
    pub fn needed_at(&self, alloc: Global, target: &str) -> Result<Option<Text>, NoMemory>
        ensures { GivesAnswer result (spec.needed_at self.now.reaches.now.0 self.now.reaches.now.1 self.now.constraints.now self.now.rules.now target.now) }
    {
        match canon(alloc, target.as_bytes()) {
            Ok(canon) => self.needed_path(alloc, canon.path.as_str()),
            Err(CanonFault::Path(_)) => Ok(None),
            Err(CanonFault::NoMemory) => Err(NoMemory),
        }
    }

    fn needed_path(&self, alloc: Global, path: &str) -> Result<Option<Text>, NoMemory>
        ensures { GivesAnswer result (spec.needed_path self.now.reaches.now.0 self.now.reaches.now.1 self.now.constraints.now self.now.rules.now path.now) }
    {
        let context = self.reaches.context();
        if !is_at_or_below(context, path) {
            return Ok(None);
        }
        let within = path_within(context, path);
        if self.reaches.serves(path) && !is_protected(within) && self.bars(within) {
            return Ok(Some(Text::copy_of(alloc, within)?));
        }
        Ok(None)
    }

    /// Returns whether a request without a caller may not get the path, and not only over a plain connection.
    fn bars(&self, path: &str) -> bool
        ensures { result ≡ spec.is_barred self.now.constraints.now self.now.rules.now path.now }
    {
        match decide_plain(self.constraints, self.rules, "GET", path, None) {
            Decision::Open(_) => false,
            Decision::Login(_) => true,
            Decision::Denied(why) => !matches!(why.cause, Cause::Transport),
        }
    }
}

/// Returns the target that a browser asks for by a relative path in a folder of the context: parts `..` that lead above
/// the topmost folder are dropped there (RFC 3986, section 5.2.4).
fn target_in(alloc: Global, context: &str, folder: &str, relative: &str) -> Result<Text, NoMemory>
    ensures { GivesAnswer result (spec.target_in context.now folder.now relative.now) }
{
    let target = in_folder(alloc, context, folder, relative)?;
    if climbs(alloc, target.as_str())? {
        return at_top(alloc, relative);
    }
    Ok(target)
}

/// Returns the target of a relative path in a folder of the context. The path of the folder is written with escapes.
fn in_folder(alloc: Global, context: &str, folder: &str, relative: &str) -> Result<Text, NoMemory>
    ensures { GivesAnswer result (spec.in_folder context.now folder.now relative.now) }
{
    let mut path = Text::copy_of(alloc, context)?;
    path.push_str(alloc, folder)?;
    let mut target = Text::from_string(location(alloc, path.as_str())?);
    target.push_str(alloc, "/")?;
    target.push_str(alloc, relative)?;
    Ok(target)
}

/// Returns whether a target leads above the topmost folder of the server.
fn climbs(alloc: Global, target: &str) -> Result<bool, NoMemory>
    ensures { GivesAnswer result (spec.climbs (canonical target.now)) }
{
    match canon(alloc, target.as_bytes()) {
        Ok(_) => Ok(false),
        Err(CanonFault::Path(fault)) => Ok(is_climb(fault)),
        Err(CanonFault::NoMemory) => Err(NoMemory),
    }
}

fn is_climb(fault: PathFault) -> bool
    ensures { result ≡ spec.is_climb fault }
{
    matches!(fault, PathFault::Climbs)
}

/// Returns the target of a relative path in the topmost folder of the server, without the parts `..` at its front.
fn at_top(alloc: Global, relative: &str) -> Result<Text, NoMemory>
    ensures { GivesAnswer result (codes "/" ++ spec.without_parents relative.now) }
{
    let mut target = Text::copy_of(alloc, "/")?;
    target.push_str(alloc, without_parents(relative))?;
    Ok(target)
}

fn without_parents(relative: &str) -> &str
    ensures { result.now ≡ spec.without_parents relative.now }
{
    relative.trim_start_matches("../")
}
