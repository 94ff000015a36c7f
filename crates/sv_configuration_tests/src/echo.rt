//! An event handler in place of a container.

use std::alloc::Global;
use sv_journal::{Entry, Journal, RefusalCause};
use sv_message::Segments;
use sv_policy::{Edit, EditFault};
use sv_rows::Draft;
use sv_run::{EventHandler, Happening, Reaction, StepFault};
use sv_wire::Awaited;

/// Sends the bytes of each piece and its time, in angle brackets, and notes each event except edits. A piece of full
/// stops is neither answered nor noted. A piece with a star gives an entry, and one that ends in an exclamation mark
/// closes the connection. A piece that begins with a question mark is refused with the fault of the digit after it. So
/// are the opening of a connection, its end and its loss, if its number is 900, 910 or 920 plus that of a fault. An
/// appended constraint gets the number 7. Withdrawals of the constraints 901 to 903 are refused, each with a different
/// fault.
#[derive(Drop)]
pub(crate) struct Echo {
    alloc: Global,
    pub noted: Draft,
}

impl Echo {
    pub fn new(alloc: Global) -> Echo {
        Echo {
            alloc,
            noted: Draft::new(alloc),
        }
    }

    fn note(&mut self, event: &str, number: u64) {
        if !self.noted.is_empty() {
            self.noted.add(" ");
        }
        self.noted.add(event);
        self.noted.add_shown(&number);
    }

    fn plain(&self, closes: bool) -> Reaction {
        Reaction {
            sends: Segments::new(self.alloc),
            closes,
            journal: Journal::new(self.alloc),
            edited: None,
        }
    }

    fn edited(&self, edit: &Edit) -> Reaction {
        let mut reaction = self.plain(false);
        reaction.edited = Some(match edit {
            Edit::Append(_) => Ok(7),
            Edit::Withdraw(901) => Err(EditFault::NoSuch),
            Edit::Withdraw(902) => Err(EditFault::TooMany),
            Edit::Withdraw(903) => Err(EditFault::NumberSpent),
            Edit::Withdraw(number) => Ok(*number),
        });
        reaction
    }

    // Handles an event without bytes, which is refused if its number has a fault.
    fn told(
        &mut self,
        event: &str,
        number: u64,
        fault: u64,
        closes: bool,
    ) -> Result<Reaction, StepFault> {
        match fault_of(fault) {
            Some(fault) => Err(fault),
            None => {
                self.note(event, number);
                Ok(self.plain(closes))
            }
        }
    }

    fn piece(&mut self, connection: u64, bytes: &[u8], moment: u64) -> Result<Reaction, StepFault> {
        if let Some(fault) = fault_in(bytes) {
            return Err(fault);
        }
        if bytes.iter().all(|b| *b == b'.') {
            return Ok(self.plain(false));
        }
        self.note("piece", connection);
        let mut sends = Draft::new(self.alloc);
        sends.add("<");
        sends.add_bytes(bytes);
        sends.add("@");
        sends.add_shown(&moment);
        sends.add(">");
        let mut journal = Journal::new(self.alloc);
        if bytes.iter().any(|b| *b == b'*') {
            journal.note(Ok(Entry::Refused(RefusalCause::Star)));
        }
        match sends.finish() {
            Ok(sends) => Ok(Reaction {
                sends: Segments::from_vec(sends),
                closes: bytes.last() == Some(&b'!'),
                journal,
                edited: None,
            }),
            Err(_) => Err(StepFault::NoMemory),
        }
    }
}

impl EventHandler for Echo {
    ghost use Rattle.sv_wire.specs.declared.inbox.Awaited.TheVariants.{Message};

    ghost steps = { λ _ _ _ _. Unit {0} };

    ghost awaited = { λ _ _. Message };

    fn awaits(&self, _connection: u64) -> Awaited {
        Awaited::Message
    }

    fn step(&mut self, happening: Happening) -> Result<Reaction, StepFault> {
        match happening {
            Happening::Opened { connection } => {
                self.told("open", connection, connection.saturating_sub(900), false)
            }
            Happening::Piece {
                connection,
                bytes,
                moment,
            } => self.piece(connection, bytes, moment),
            Happening::Ended { connection } => {
                self.told("end", connection, connection.saturating_sub(910), true)
            }
            Happening::Lost { connection } => {
                self.told("lost", connection, connection.saturating_sub(920), false)
            }
            Happening::Tick { moment } => self.told("tick", moment, 0, false),
            Happening::Edit { edit, .. } => Ok(self.edited(edit)),
        }
    }
}

// Returns the fault of a number.
fn fault_of(number: u64) -> Option<StepFault> {
    match number {
        1 => Some(StepFault::Stopped),
        2 => Some(StepFault::BadConnection),
        3 => Some(StepFault::TooManyConnections),
        4 => Some(StepFault::NoMemory),
        _ => None,
    }
}

// Returns the fault that a piece asks for.
fn fault_in(bytes: &[u8]) -> Option<StepFault> {
    let (mark, rest) = bytes.split_first()?;
    let (digit, _) = rest.split_first()?;
    if *mark == b'?' {
        fault_of(u64::from(digit.saturating_sub(b'0')))
    } else {
        None
    }
}
