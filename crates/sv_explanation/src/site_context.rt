//! What a request meets: the contexts of a site, and the request itself.

use sv_constraints::Constraint;
use sv_descriptor::Descriptor;
use sv_mapping::HasContextPath;
use sv_realm::Caller;
use sv_text::{Listed, Text};

/// A context of a site, as its requests meet it.
#[derive(Drop)]
pub struct SiteContext {
    /// The context path: empty for the root context, otherwise a path that begins with `/` and does not end in one.
    pub path: Text,
    /// The name of the file of its descriptor.
    pub file: Text,
    /// The descriptor: its rules, servlets, filters and pages. Its constraints do not matter.
    pub descriptor: Descriptor,
    /// The constraints, as a request meets them over the connection that is asked for.
    pub constraints: Listed<Constraint>,
    /// The line of `file` on which constraint n begins, at place n - 1, if it is known.
    pub lines: Listed<Option<u64>>,
    /// The caller that is asked for.
    pub caller: AskedCaller,
    /// The paths of its static files, or none if they are not known.
    pub files: Option<Listed<Text>>,
}

/// The caller that is asked for, in one context.
#[derive(Drop)]
pub enum AskedCaller {
    /// None is asked for.
    Nobody,
    /// A user of the context, or a caller with a role. It counts if the context has a login configuration.
    Known(Caller),
    /// The user of this name, which the context does not have.
    Unknown(Text),
}

impl HasContextPath for SiteContext {
    ghost path_of = { λ context. context.path };

    fn context_path(&self) -> &str {
        self.path.as_str()
    }
}

/// The request that is explained.
#[derive(Clone, Copy)]
pub struct Asked<'a> {
    /// The method.
    pub method: &'a str,
    /// The target, as it is in the request line (RFC 9112, section 3.2).
    pub target: &'a str,
}
