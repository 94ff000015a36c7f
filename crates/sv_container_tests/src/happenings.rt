//! The events of rows.

use crate::deployments::TestContainer;
use std::alloc::Global;
use sv_rows::unescaped;
use sv_run::{Happening, Reaction, StepFault};
use sv_text::NoMemory;

/// Passes an event to a container: `open`, `end` or `lost` with the number of a connection, `tick` with a time, or
/// `send` with the number of a connection and bytes with escapes. A `send` has the time 0, which never advances the
/// container's time.
pub fn step(
    alloc: Global,
    event: &str,
    container: &mut TestContainer,
) -> Result<Reaction, StepFault> {
    let (name, rest) = event.split_once(' ').unwrap_or((event, ""));
    let (number, text) = rest.split_once(' ').unwrap_or((rest, ""));
    let number = number.parse::<u64>().unwrap_or(0);
    match unescaped(alloc, text) {
        Ok(bytes) => container.step(happening(name, number, bytes.as_slice())),
        Err(NoMemory) => Err(StepFault::NoMemory),
    }
}

fn happening<'a>(name: &str, number: u64, bytes: &'a [u8]) -> Happening<'a> {
    match name {
        "open" => Happening::Opened { connection: number },
        "end" => Happening::Ended { connection: number },
        "lost" => Happening::Lost { connection: number },
        "tick" => Happening::Tick { moment: number },
        _ => Happening::Piece {
            connection: number,
            bytes,
            moment: 0,
        },
    }
}
