//! The words that begin a line at the control socket.

ghost use Rattle.std.specs.Prelude.{◌≡◌};
ghost use Rattle.sv_control_words.specs.ControlWord as spec;

/// The word that begins a line at the control socket.
#[derive(Clone, Copy, Debug, PartialEq, Eq)]
pub enum ControlWord {
    /// `status`: shows the status of the server.
    Status,
    /// `constraints`: lists the constraints in force.
    Constraints,
    /// `uncovered`: lists the methods that the constraints leave uncovered.
    Uncovered,
    /// `explain METHOD TARGET [USER]`: explains what would become of a request.
    Explain,
    /// `append CONTEXT PATTERN METHODS ROLES`: adds a constraint.
    Append,
    /// `withdraw CONTEXT N`: removes a constraint.
    Withdraw,
    /// `stop`: stops the server.
    Stop,
}

impl ControlWord {
    /// Returns the word of this name, if there is one.
    pub fn named(name: &str) -> Option<ControlWord>
        ensures { result ≡ spec.word_named name.now }
    {
        if name == "status" {
            Some(ControlWord::Status)
        } else if name == "constraints" {
            Some(ControlWord::Constraints)
        } else if name == "uncovered" {
            Some(ControlWord::Uncovered)
        } else if name == "explain" {
            Some(ControlWord::Explain)
        } else if name == "append" {
            Some(ControlWord::Append)
        } else if name == "withdraw" {
            Some(ControlWord::Withdraw)
        } else if name == "stop" {
            Some(ControlWord::Stop)
        } else {
            None
        }
    }

    /// Returns the least number of arguments of the word.
    pub fn least(self) -> usize
        ensures { result ≡ spec.least self }
    {
        match self {
            ControlWord::Status => 0,
            ControlWord::Constraints => 0,
            ControlWord::Uncovered => 0,
            ControlWord::Explain => 2,
            ControlWord::Append => 4,
            ControlWord::Withdraw => 2,
            ControlWord::Stop => 0,
        }
    }

    /// Returns the greatest number of arguments of the word.
    pub fn most(self) -> usize
        ensures { result ≡ spec.most self }
    {
        match self {
            ControlWord::Status => 0,
            ControlWord::Constraints => 0,
            ControlWord::Uncovered => 0,
            ControlWord::Explain => 3,
            ControlWord::Append => 4,
            ControlWord::Withdraw => 2,
            ControlWord::Stop => 0,
        }
    }

    /// Returns the word with its arguments, as the usage shows them.
    pub fn usage(self) -> &'static str
        ensures { result.now ≡ spec.word_usage self }
    {
        match self {
            ControlWord::Status => "status",
            ControlWord::Constraints => "constraints",
            ControlWord::Uncovered => "uncovered",
            ControlWord::Explain => "explain METHOD TARGET [USER]",
            ControlWord::Append => "append CONTEXT PATTERN METHODS ROLES",
            ControlWord::Withdraw => "withdraw CONTEXT N",
            ControlWord::Stop => "stop",
        }
    }
}
