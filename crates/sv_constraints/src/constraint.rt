//! Security constraints: the requests they cover, the callers they admit and the transport they require.

ghost use Rattle.std.specs.Prelude.{◌≡◌};
ghost use Rattle.sv_constraints.specs.Verdict as verdict;

use sv_mapping::Pattern;
use sv_text::{Listed, Text};

/// The maximum length of the name of a method, in bytes.
pub const MAX_METHOD_BYTES: usize = 15;

/// The maximum number of patterns of a constraint, in all its collections together.
pub const MAX_PATTERNS_OF_CONSTRAINT: usize = 64;

/// A web resource collection: the requests whose best pattern is among `patterns` and whose method is among `methods`
/// (Jakarta Servlet 6.0, section 13.8).
#[derive(Drop)]
pub struct Collection {
    /// The patterns. They are compared with the best pattern by their texts.
    pub patterns: Listed<Pattern>,
    /// The methods.
    pub methods: Methods,
}

/// The methods that a collection covers. Names are case-sensitive.
#[derive(Drop)]
pub enum Methods {
    /// Every method.
    All,
    /// The listed methods (`http-method`).
    Only(Listed<Text>),
    /// Every method except the listed ones (`http-method-omission`).
    Except(Listed<Text>),
}

/// A security constraint (Jakarta Servlet 6.0, section 13.8).
#[derive(Drop)]
pub struct Constraint {
    /// The number of the constraint, used in decisions.
    pub number: u64,
    /// The collections. The constraint covers a request if one of them does.
    pub collections: Listed<Collection>,
    /// The callers that it admits.
    pub auth: Auth,
    /// The transport that it requires.
    pub transport: Transport,
}

impl Constraint {
    /// Returns whether the list of roles is empty, so that nobody may pass.
    pub fn precludes(&self) -> bool
        ensures { result ≡ verdict.precludes self.now }
    {
        match &self.auth {
            Auth::Absent => false,
            Auth::Roles(names) => names.as_slice().is_empty(),
        }
    }

    /// Returns whether there is no authorization constraint, so that everyone may pass.
    pub fn is_open(&self) -> bool
        ensures { result ≡ verdict.is_open self.now }
    {
        matches!(self.auth, Auth::Absent)
    }

    /// Returns whether a plain connection is sufficient.
    pub fn permits_plain(&self) -> bool
        ensures { result ≡ verdict.permits_plain self.now }
    {
        matches!(self.transport, Transport::Absent | Transport::Plain)
    }
}

/// The authorization constraint (`auth-constraint`).
#[derive(Drop)]
pub enum Auth {
    /// No authorization constraint: everyone may pass, without a login.
    Absent,
    /// Callers with one of these roles may pass. An empty list admits nobody, `*` every caller with a declared role,
    /// and `**` every authenticated caller.
    Roles(Listed<Text>),
}

/// The user data constraint (`transport-guarantee`).
#[derive(Clone, Copy, Debug, PartialEq, Eq)]
pub enum Transport {
    /// No user data constraint: a plain connection is sufficient.
    Absent,
    /// NONE: a plain connection is sufficient.
    Plain,
    /// INTEGRAL: a plain connection is not sufficient.
    Integral,
    /// CONFIDENTIAL: a plain connection is not sufficient.
    Confidential,
}

/// The security settings of an application besides its constraints.
#[derive(Drop)]
pub struct Rules {
    /// The declared roles (`security-role`), which `*` means in a list of roles.
    pub declared: Listed<Text>,
    /// Whether requests that no constraint covers at their best pattern are denied
    /// (`deny-uncovered-http-methods`, Jakarta Servlet 6.0, section 13.8.4).
    pub deny_uncovered: bool,
}
