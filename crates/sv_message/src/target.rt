//! The forms of a request target.

ghost use Rattle.std.specs.Prelude.{◌≡◌, ◌≤◌, true, length};
ghost use Rattle.sv_message.specs.TargetForm.{scheme, target_form, has_scheme, authority_len, is_authority, is_behind_authority, FitsForm};

use crate::host::is_host;
use crate::members::is_in_lower_case;

const SCHEME: &[u8] = b"http://";

/// The length of the scheme of an absolute form, in bytes.
pub const SCHEME_LEN: usize = SCHEME.len();

/// The form of a request target (RFC 9112, section 3.2).
#[derive(Clone, Copy)]
pub enum TargetForm {
    /// A path.
    Origin,
    /// A scheme, an authority with this many bytes, and a path, which may be empty.
    Absolute(usize),
    /// `*` with the method OPTIONS: the server itself.
    Star,
    /// A form that is not served.
    Unknown,
}

/// Returns the form of a target, by the request's method. CONNECT asks for a tunnel (RFC 9110, section 9.3.6), so it
/// has no form that is served, whatever its target.
pub fn target_form(method: &[u8], target: &[u8]) -> TargetForm
    ensures form { result ≡ target_form method.now target.now }
    ensures fits { FitsForm result target.now }
{
    if method == b"CONNECT".as_slice() {
        return TargetForm::Unknown;
    }
    if target.starts_with(b"/") {
        return TargetForm::Origin;
    }
    if has_scheme(target) {
        let behind = &target[SCHEME_LEN..];
        let len = authority_len(behind);
        if is_authority(&behind[..len]) {
            return TargetForm::Absolute(len);
        }
    }
    if target == b"*".as_slice() && method == b"OPTIONS".as_slice() {
        return TargetForm::Star;
    }
    TargetForm::Unknown
}

/// Returns whether a target begins with the scheme, in any case.
fn has_scheme(target: &[u8]) -> bool
    ensures value { result ≡ has_scheme target.now }
    ensures fits { result ≡ true → length scheme ≤ length target.now }
{
    target.len() >= SCHEME_LEN && is_in_lower_case(&target[..SCHEME_LEN], SCHEME)
}

/// Returns the length in bytes of the authority that follows the scheme.
fn authority_len(behind: &[u8]) -> usize
    ensures value { result ≡ authority_len behind.now }
    ensures fits { result ≤ length behind.now }
{
    for (i, b) in behind.iter().enumerate() {
        if is_behind_authority(*b) {
            return i;
        }
    }
    behind.len()
}

/// Returns whether a byte ends the authority before it.
fn is_behind_authority(b: u8) -> bool
    ensures { result ≡ is_behind_authority b }
{
    b == b'/' || b == b'?'
}

/// Returns whether bytes are an authority: a host that is not empty.
fn is_authority(authority: &[u8]) -> bool
    ensures { result ≡ is_authority authority.now }
{
    !authority.is_empty() && is_host(authority)
}
