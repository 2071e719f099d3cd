//! Digests.

/// A digest, with the algorithm that computes it.
#[derive(Clone, Copy)]
pub enum Sum {
    Md5([u8; 16]),
    Sha1([u8; 20]),
    Sha256([u8; 32]),
    Sha512([u8; 64]),
}

impl Sum {
    /// Returns the digest of these bytes, of the algorithm whose digests have their number. None if there is none.
    pub fn of_bytes(bytes: &[u8]) -> Option<Sum> {
        match bytes.len() {
            16 => bytes.try_into().ok().map(Sum::Md5),
            20 => bytes.try_into().ok().map(Sum::Sha1),
            32 => bytes.try_into().ok().map(Sum::Sha256),
            64 => bytes.try_into().ok().map(Sum::Sha512),
            _ => None,
        }
    }
}
