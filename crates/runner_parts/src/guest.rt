//! The length and the digest that tell a guest's text from others.

ghost use Rattle.std.specs.Prelude.{◌≡◌, All, Contains, IfSome, IfNone};
ghost use Rattle.runner_parts.specs.PartText.{guest_of, IsOfText};

use crate::part::Part;
use sha2::{Digest, Sha256};

/// A guest's text by its length and its digest: texts that are equal in both are taken for the
/// same.
#[derive(Clone, Copy, PartialEq, Eq)]
pub struct GuestDigest {
    /// How many bytes the text has.
    pub bytes: u64,
    /// The SHA-256 digest of the text.
    pub sha256: [u8; 32],
}

impl GuestDigest {
    /// The length and the digest of a guest's text.
    pub fn of_text(text: &[u8]) -> GuestDigest
        ensures { result ≡ guest_of text.now }
    {
        GuestDigest {
            bytes: text.len() as u64,
            sha256: Sha256::digest(text),
        }
    }
}

/// The first of the parts that isn't of the guest with this text; `None` where all are of it.
pub fn first_of_another<'a>(parts: &'a [Part], text: &[u8]) -> Option<&'a Part>
    ensures some { IfSome result (λ x.
        Contains parts.now x.now × (IsOfText text.now x.now → ⊥)) }
    ensures none { IfNone result (All (IsOfText text.now) parts.now) }
{
    let guest = GuestDigest::of_text(text);
    parts.iter().find(|part| part.guest != guest)
}
