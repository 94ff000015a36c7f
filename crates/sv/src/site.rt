//! The settings of a server, from the options of the command `run`.

ghost use Rattle.std.specs.Prelude.{◌≡◌};
ghost use Rattle.std.specs.Option.{unwrap_or};
ghost use Rattle.sv.specs.Site as spec;

use sv_arguments::RunOptions;
use sv_connection::Limits;
use sv_listening::Seeding;

/// The number of bytes in a mebibyte.
const MEBIBYTE: u64 = 1_048_576;

/// Returns the limits of the options, with the standard limits as defaults.
pub fn limits_of(options: &RunOptions<'_>) -> Limits
    ensures { result ≡ spec.limits_of options.now }
{
    let standard = Limits::standard();
    Limits {
        connections: connections_or(options.connections, standard.connections),
        idle_seconds: seconds_or(options.idle_seconds, standard.idle_seconds),
        held_bytes: bytes_or(options.held_mebibytes, standard.held_bytes),
    }
}

/// Returns the seeding of the random words.
pub fn seeding_by(same_seed: bool) -> Seeding
    ensures { result ≡ spec.seeding_by same_seed }
{
    if same_seed {
        Seeding::Configured
    } else {
        Seeding::Fresh
    }
}

fn connections_or(asked: Option<u32>, usual: usize) -> usize
    ensures { result ≡ unwrap_or asked usual }
{
    match asked {
        Some(connections) => connections as usize,
        None => usual,
    }
}

fn seconds_or(asked: Option<u32>, usual: u64) -> u64
    ensures { result ≡ unwrap_or asked usual }
{
    match asked {
        Some(seconds) => u64::from(seconds),
        None => usual,
    }
}

fn bytes_or(asked: Option<u32>, usual: u64) -> u64
    ensures { result ≡ spec.bytes_or asked usual }
{
    match asked {
        Some(mebibytes) => u64::from(mebibytes) * MEBIBYTE,
        None => usual,
    }
}
