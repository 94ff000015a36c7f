//! Checking a password against the digest of an account.

ghost use Rattle.std.specs.Prelude.{◌≡◌, ◌++◌, bit_or, bit_xor, fold};
ghost use Rattle.std.specs.List.{zip};
ghost use Rattle.std.specs.Option.{option_copied};
ghost use Rattle.std.specs.Str.{bytes_eq};
ghost use Rattle.sha2.specs.Sha256.{sha256};
ghost use Rattle.sv_realm.specs.Account.{account_fits};

use crate::account::Account;
use sha2::{Digest, Sha256};

/// The salt that is hashed if there is no account. It is as long as the salts that `tools/new-user` makes.
const NO_SALT: [u8; 16] = [0; 16];

/// Returns whether there is an account and its digest is the SHA-256 of its salt followed by the password. A digest is
/// also computed if there is no account, so that the time taken does not show which names exist. No contract states
/// this property of the code.
pub fn fits(account: Option<&Account>, password: &[u8]) -> bool
    ensures { result ≡ account_fits (option_copied account.entry) password.now }
{
    let salt = account.map_or(NO_SALT.as_slice(), |account| account.salt.as_slice());
    let digest = digest_of(salt, password);
    account.is_some_and(|account| same_bytes(&digest, account.digest.as_slice()))
}

/// Returns the SHA-256 of a salt followed by a password.
fn digest_of(salt: &[u8], password: &[u8]) -> [u8; 32]
    ensures { result ≡ sha256 (salt.now ++ password.now) }
{
    let mut hasher = Sha256::new();
    hasher.update(salt);
    hasher.update(password);
    hasher.finalize()
}

/// Returns whether two byte strings are equal. Strings of the same length are always compared to their ends, so that
/// the time taken does not show how much of a guess was right. No contract states this property of the code.
pub fn same_bytes(left: &[u8], right: &[u8]) -> bool
    ensures { result ≡ bytes_eq left.now right.now }
{
    left.len() == right.len() && difference(left, right) == 0
}

/// Returns the bits that differ between any two bytes at the same position. Bytes past the end of the shorter string
/// are ignored.
fn difference(left: &[u8], right: &[u8]) -> u8
    ensures { result ≡ fold (λ bits pair. bit_or bits (bit_xor pair.0 pair.1)) 0 (zip left.now right.now) }
{
    left.iter()
        .zip(right)
        .fold(0, |bits, (x, y)| bits | (x ^ y))
}
