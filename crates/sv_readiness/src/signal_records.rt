//! The records of signals that a descriptor of `signalfd(2)` gives.

ghost use Rattle.std.specs.Prelude.{◌≡◌};
ghost use Rattle.sv_readiness.specs.Signals as spec;

use crate::limits::SIGNAL_RECORD_BYTES;

// The numbers of the signals that ask for a stop.
const SIGINT: u32 = 2;

const SIGTERM: u32 = 15;

/// Whether a whole record in these bytes is of a signal that asks for a stop. A part of a record at the end counts for
/// nothing.
pub(crate) fn ask_to_stop(bytes: &[u8]) -> bool
    ensures { result ≡ spec.ask_to_stop bytes.now }
{
    let (records, _) = bytes.as_chunks::<SIGNAL_RECORD_BYTES>();
    records.iter().any(|signal| is_stop(signal_number(signal)))
}

// Returns the number of the signal of a record.
fn signal_number(signal: &[u8; SIGNAL_RECORD_BYTES]) -> u32
    ensures { result ≡ spec.signal_number signal.now }
{
    u32::from_le_bytes([signal[0], signal[1], signal[2], signal[3]])
}

// Whether the signal of this number asks for a stop.
fn is_stop(number: u32) -> bool
    ensures { result ≡ spec.is_stop number }
{
    number == SIGTERM || number == SIGINT
}
