//! HMAC-SHA-256 (RFC 2104), over messages that come in pieces.

ghost use Rattle.std.specs.Prelude.{◌≡◌, ◌≤◌, ℕ, List, [], ◌++◌, length};
ghost use Rattle.sv_saved_sessions.specs.Hmac.{HoldsMessage, block_bytes, file_key, hmac_sha256, padded_key};

use sha2::{Digest, Sha256};

/// The length of a code, in bytes.
pub(crate) const CODE_BYTES: usize = 32;

/// The length of a block of SHA-256, in bytes, and the greatest length of a key.
const BLOCK_BYTES: usize = 64;

/// The computation of the code of a message that comes in pieces.
#[derive(Drop)]
pub struct Hmac {
    inner: Sha256,
    outer: Sha256,
}

impl Hmac {
    /// Begins the code of a message, with a key of at most 64 bytes.
    pub fn new(key: &[u8]) -> Hmac
        requires { length key.now ≤ block_bytes }
        ensures { HoldsMessage key.now result [] }
    {
        let mut inner = Sha256::new();
        inner.update(&padded_key(key, 0x36));
        let mut outer = Sha256::new();
        outer.update(&padded_key(key, 0x5C));
        Hmac { inner, outer }
    }

    /// Adds a piece to the message.
    pub fn update(&mut self, piece: &[u8])
        ensures { (key message : List ℕ) → HoldsMessage key self.old message → HoldsMessage key self.new (message ++ piece.now) }
    {
        self.inner.update(piece);
    }

    /// Returns the code of the message.
    pub fn finalize(self) -> [u8; 32]
        ensures { (key message : List ℕ) → HoldsMessage key self message → result ≡ hmac_sha256 key message }
    {
        let Hmac { inner, mut outer } = self;
        outer.update(&inner.finalize());
        outer.finalize()
    }
}

/// Returns the code of a message, with a key of at most 64 bytes.
pub fn hmac_sha256_of(key: &[u8], message: &[u8]) -> [u8; 32]
    requires { length key.now ≤ block_bytes }
    ensures { result ≡ hmac_sha256 key.now message.now }
{
    let mut hmac = Hmac::new(key);
    hmac.update(message);
    hmac.finalize()
}

/// Returns the key of the files, from a secret of 32 bytes.
pub fn file_key(seed: &[u8]) -> [u8; 32]
    requires { length seed.now ≡ 32 }
    ensures { result ≡ file_key seed.now }
{
    hmac_sha256_of(seed, b"fitskhela sessions 1")
}

/// Returns a block: the key and zeros after it, each byte combined with the pad.
fn padded_key(key: &[u8], pad: u8) -> [u8; 64]
    requires { length key.now ≤ block_bytes }
    ensures { result ≡ padded_key pad key.now }
{
    let mut block = [0; 64];
    for place in 0..BLOCK_BYTES {
        let byte = if place < key.len() { key[place] } else { 0 };
        block[place] = byte ^ pad;
    }
    block
}
