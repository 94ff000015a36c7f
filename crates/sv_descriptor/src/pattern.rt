//! URL patterns.

ghost use Rattle.sv_descriptor.specs.Pattern.{pattern};

use crate::fault::{FaultCode, LocatedReadFault, refuse};
use crate::list::ListOf;
use crate::text::{TextOf, TextSchema};
use std::alloc::Global;
use sv_mapping::{Pattern, PatternFault};

/// A URL pattern.
#[derive(Clone, Copy)]
pub struct UrlPattern;

impl TextSchema for UrlPattern {
    type Output = Pattern;

    ghost reads = { λ _. pattern };

    fn read(&self, alloc: Global, key: &str, text: &str) -> Result<Pattern, LocatedReadFault> {
        match Pattern::parse(alloc, text) {
            Ok(pattern) => Ok(pattern),
            Err(PatternFault::BadPattern) => refuse(alloc, FaultCode::BadPattern, key),
            Err(PatternFault::NoMemory) => Err(LocatedReadFault::NoMemory),
        }
    }
}

/// A list of `least` to `most` URL patterns.
pub type UrlPatterns = ListOf<TextOf<UrlPattern>>;
