//! The token that a form sends back, so that no other site can send it in a user's name.

ghost use Rattle.std.specs.Prelude.{◌≡◌, ◌++◌, IfOk};
ghost use Rattle.sha2.specs.Sha256.{sha256};
ghost use Rattle.guestbook_components.specs.Token.{is_own_form, token_for, token_of};

use sha2::{Digest, Sha256};
use std::alloc::Global;
use sv_web::{Exchange, Fault, NoMemory, Text};

/// The purpose of the digests, so that they are of no use elsewhere.
const PURPOSE: &[u8] = b"guestbook form ";

/// Returns the token of this session's forms: a digest of the session id, which no other site knows. Returns `None`
/// without a session, and thus without a user.
pub fn token_of(alloc: Global, exchange: &Exchange) -> Result<Option<Text>, NoMemory>
    ensures { IfOk result (λ token. token ≡ token_of exchange.now) }
{
    match exchange.session_id() {
        Some(id) => Ok(Some(token_for(alloc, id)?)),
        None => Ok(None),
    }
}

// Returns the token of the session of this id.
fn token_for(alloc: Global, id: &str) -> Result<Text, NoMemory>
    ensures { IfOk result (λ token. token ≡ token_for id.now) }
{
    let digest = digest_of(PURPOSE, id.as_bytes());
    Ok(Text::from_string(hex::encode(alloc, &digest)?))
}

// Returns the digest of two texts, appended to each other.
fn digest_of(first: &[u8], second: &[u8]) -> [u8; 32]
    ensures { result ≡ sha256 (first.now ++ second.now) }
{
    let mut hasher = Sha256::new();
    hasher.update(first);
    hasher.update(second);
    hasher.finalize()
}

/// Returns whether the form that was sent has the token of this session.
///
/// # Errors
/// Only [`Fault::NoMemory`].
pub fn is_own_form(alloc: Global, exchange: &Exchange) -> Result<bool, Fault>
    ensures { IfOk result (λ own. own ≡ is_own_form exchange.now) }
{
    let Some(token) = token_of(alloc, exchange)? else {
        return Ok(false);
    };
    match exchange.parameter("token")? {
        Some(sent) => Ok(sent.as_str() == token.as_str()),
        None => Ok(false),
    }
}
