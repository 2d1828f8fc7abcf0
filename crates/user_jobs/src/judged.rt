//! Which texts were judged already.

use super::digest::Digest;
use anyhow::Result;
use std::alloc::Global;
use std::collections::HashSet;

/// The texts that were judged, each by its digest: a text with the digest of another counts as judged too.
#[derive(Drop)]
pub struct Judged {
    digests: HashSet<u64>,
}

impl Judged {
    /// No text was judged.
    pub fn new(alloc: Global) -> Judged {
        Judged {
            digests: HashSet::new(alloc),
        }
    }

    /// Notes that a text is judged, and answers whether it was not before.
    pub fn add(&mut self, text: &[u8]) -> Result<bool> {
        let mut digest = Digest::new();
        digest.bytes(text);
        Ok(self.digests.insert(digest.value())?)
    }
}
