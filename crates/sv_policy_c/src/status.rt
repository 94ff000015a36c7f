//! The result of an exported function.

ghost use Rattle.std.specs.Prelude.{◌≡◌};
ghost use Rattle.sv_policy_c.specs.Status.{number};

/// The result of an exported function, returned as a number.
#[derive(Clone, Copy, Debug, PartialEq, Eq)]
pub enum Status {
    /// The call succeeded, and the answer, if there is one, is written.
    Written = 0,
    /// The descriptor has a fault. The answer is the fault's name and key, separated by a space.
    Fault = 1,
    /// The method is not a token (RFC 9110, section 5.6.2).
    Method = 2,
    /// Memory ran out.
    NoMemory = 3,
    /// The answer does not fit into the buffer. Its length is set to the size needed.
    Short = 4,
    /// A text is not UTF-8.
    NotText = 5,
    /// The handle holds no policy, or there is no caller to which a role could be added.
    Nothing = 6,
}

impl Status {
    /// Returns the number that C receives.
    pub fn number(self) -> u32
        ensures { result ≡ number self }
    {
        self as u32
    }
}
