//! The seed of a start.

ghost use Rattle.std.specs.Prelude.{◌≡◌, length};
ghost use Rattle.sv_listening.specs.Seeding.{GivesSeed, HasSeedLength, IsRandomFault};

use std::alloc::Global;
use std::random::RandomSource;
use sv_program::{CommandFault, Unavailable};
use sv_text::{NoMemory, Text};

/// The name of the system's random source in a fault.
pub const RANDOM_SOURCE: &str = "random";

/// The source of a container's random words.
#[derive(Clone, Copy)]
pub enum Seeding {
    /// The seed of the server file and 32 bytes of the system's random source. Each start has words of its own.
    Fresh,
    /// Only the seed of the server file. Each start has the same words.
    Configured,
}

/// Returns the seed of a start of a server with this seed. No contract says which bytes the system's random source
/// gives.
///
/// # Errors
/// [`CommandFault::File`] with the name [`RANDOM_SOURCE`] if the system's random source fails, or
/// [`CommandFault::NoMemory`]. A seed that is only the server file's has neither.
pub fn seed_for<H: RandomSource>(
    alloc: Global,
    host: &H,
    seeding: Seeding,
    configured: &[u8],
) -> Result<[u8; 32], CommandFault>
    requires { length configured.now ≡ 32 }
    ensures gives { GivesSeed seeding configured.now result }
    ensures length { HasSeedLength result }
{
    match seeding {
        Seeding::Fresh => fresh_seed(alloc, host, configured),
        Seeding::Configured => Ok(key_of(configured)),
    }
}

// Returns the seed combined with bytes of the system's random source.
fn fresh_seed<H: RandomSource>(
    alloc: Global,
    host: &H,
    configured: &[u8],
) -> Result<[u8; 32], CommandFault>
    requires { length configured.now ≡ 32 }
    ensures gives { GivesSeed Seeding.Fresh configured.now result }
    ensures length { HasSeedLength result }
{
    let mut bytes = [0; 32];
    match host.fill_bytes(&mut bytes) {
        Ok(()) => Ok(mixed(key_of(configured), &bytes)),
        Err(error) => Err(random_fault(alloc, Unavailable::of(error.kind()))),
    }
}

// Returns the seed as a key.
fn key_of(configured: &[u8]) -> [u8; 32]
    requires { length configured.now ≡ 32 }
    ensures { result ≡ configured.now }
{
    let mut key = [0; 32];
    key.copy_from_slice(configured);
    key
}

// Returns the exclusive or of the key and these bytes.
fn mixed(key: [u8; 32], bytes: &[u8]) -> [u8; 32]
    ensures { length result ≡ 32 }
{
    let mut mixed = key;
    for (own, other) in mixed.iter_mut().zip(bytes) {
        *own ^= *other;
    }
    mixed
}

// Returns the fault of a random source that fails.
fn random_fault(alloc: Global, why: Unavailable) -> CommandFault
    ensures { IsRandomFault result }
{
    match Text::copy_of(alloc, RANDOM_SOURCE) {
        Ok(name) => CommandFault::File(name, why),
        Err(NoMemory) => CommandFault::NoMemory,
    }
}
