//! The availability of a servlet.

ghost use Rattle.std.specs.Prelude.{◌≡◌};
ghost use Rattle.sv_component.specs.Standing.{is_gone, standing_now};

/// The availability of a servlet (Jakarta Servlet 6.0, section 2.3.3.2).
#[derive(Clone, Copy, Debug, PartialEq, Eq)]
pub enum Standing {
    /// The servlet is in service.
    Serving,
    /// The servlet is out of service for good.
    Gone,
    /// The servlet is out of service until this time, in seconds since 1970.
    Away(u64),
}

impl Standing {
    /// Returns whether the servlet is out of service for good. It is then not called.
    pub fn is_gone(self) -> bool
        ensures { result ≡ is_gone self }
    {
        match self {
            Standing::Serving => false,
            Standing::Gone => true,
            Standing::Away(_) => false,
        }
    }

    /// Returns the availability at a time, in seconds since 1970. A servlet that was away is back in service at its
    /// `until` time.
    pub fn at(self, moment: u64) -> Standing
        ensures { result ≡ standing_now moment self }
    {
        match self {
            Standing::Serving => Standing::Serving,
            Standing::Gone => Standing::Gone,
            Standing::Away(until) => {
                if moment < until {
                    Standing::Away(until)
                } else {
                    Standing::Serving
                }
            }
        }
    }
}
