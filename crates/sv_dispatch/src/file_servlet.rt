//! The file servlet's part in a dispatch.

ghost use Rattle.std.specs.Prelude.{◌≡◌, codes};
ghost use Rattle.sv_dispatch.specs.Did.{Did, seen};
ghost use Rattle.sv_tree.specs.Seen.{found_seen};
ghost use Rattle.sv_tree.specs.Files.{Filed, Misses, Sends, SendsTo};
ghost use Rattle.sv_tree.specs.SiteOfDescriptor.{site_of};

use crate::endings::{fault, missing, not_allowed};
use crate::machine::Machine;
use bytes::Bytes;
use std::alloc::Global;
use sv_mapping::Kind;
use sv_text::NoMemory;
use sv_tree::{DispatchFault, FOUND, FileFound, Finished, Resource, Site};

/// Answers with the file servlet's result (Jakarta Servlet 6.0, section 12.2).
pub(crate) fn filed<M: Machine>(
    alloc: Global,
    machine: &mut M,
    site: &Site,
    kind: Kind,
    found: FileFound<'_>,
) -> Result<Finished, NoMemory>
    ensures { Did M.state M.frame M.ran (Filed (site_of site.now) kind (found_seen found.entry)) machine.old machine.new (seen result) }
{
    match found {
        FileFound::File {
            content_type,
            bytes,
        } => send(alloc, machine, site, content_type, bytes),
        FileFound::Redirect(location) => send_to(machine, site, location.as_str()),
        FileFound::Missing => miss(alloc, machine, site, kind),
        FileFound::NotAllowed => not_allowed(alloc, machine, site, Resource::Files),
    }
}

// Sends a file: its content type, and its bytes if the body has room for them.
fn send<M: Machine>(
    alloc: Global,
    machine: &mut M,
    site: &Site,
    content_type: &str,
    bytes: &Bytes,
) -> Result<Finished, NoMemory>
    ensures { Did M.state M.frame M.ran (Sends (site_of site.now) content_type.now bytes.now) machine.old machine.new (seen result) }
{
    let Ok(()) = machine.set_header("content-type", content_type) else {
        return Err(NoMemory);
    };
    let Ok(sent) = machine.offer(bytes) else {
        return Err(NoMemory);
    };
    if sent {
        return Ok(Finished::Done);
    }
    fault(
        alloc,
        machine,
        site,
        Resource::Files,
        DispatchFault::TooLarge,
    )
}

// Redirects the client.
fn send_to<M: Machine>(machine: &mut M, site: &Site, location: &str) -> Result<Finished, NoMemory>
    ensures { Did M.state M.frame M.ran (SendsTo (site_of site.now) location.now) machine.old machine.new (seen result) }
{
    machine.empty();
    let Ok(()) = machine.set_status(FOUND) else {
        return Err(NoMemory);
    };
    let Ok(()) = machine.set_header("location", location) else {
        return Err(NoMemory);
    };
    Ok(Finished::Done)
}

// Reports that nothing is at the path; an include of it fails.
fn miss<M: Machine>(
    alloc: Global,
    machine: &mut M,
    site: &Site,
    kind: Kind,
) -> Result<Finished, NoMemory>
    ensures { Did M.state M.frame M.ran (Misses (site_of site.now) kind) machine.old machine.new (seen result) }
{
    match kind {
        Kind::Include => fault(
            alloc,
            machine,
            site,
            Resource::Files,
            DispatchFault::MissingInclude,
        ),
        Kind::Request => missing(alloc, machine, site, Resource::Files),
        Kind::Forward => missing(alloc, machine, site, Resource::Files),
        Kind::Error => missing(alloc, machine, site, Resource::Files),
    }
}
