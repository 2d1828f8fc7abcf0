//! The two versions of a certificate's text.

ghost use Rattle.std.specs.Prelude.{◌≡◌, ◌≢◌, MatchOption};
ghost use Rattle.specification.specs.Versions as versions;
ghost use Rattle.specification.specs.CertificateText.{version_line};
ghost use Rattle.certificate_text.specs.CertificateOf.{version_in};

/// The version that a certificate's first line names.
#[derive(Clone, Copy, Debug, PartialEq, Eq)]
pub enum Version {
    /// `cert 1`, whose rows speak of all elements.
    One,
    /// `cert 2`, whose rows speak of the elements alone that are not numbered below their source.
    Two,
}

impl Version {
    /// The version whose first line this is.
    pub fn of_line(line: &[u8]) -> Option<Version>
        ensures { MatchOption result ((version : versions.Version) → line.now ≢ version_line version)
            (λ version. line.now ≡ version_line (version_in version)) }
    {
        if line == b"cert 1".as_slice() {
            return Some(Version::One);
        }
        if line == b"cert 2".as_slice() {
            return Some(Version::Two);
        }
        None
    }
}
