//! The two versions of the trace text.

ghost use Rattle.std.specs.Prelude.{◌≡◌, ◌≢◌, MatchOption};
ghost use Rattle.specification.specs.Versions as versions;
ghost use Rattle.specification.specs.TraceText.{header_line};
ghost use Rattle.trace_text.specs.Versions.{has_views, version_in};

/// The version that a text's first line names.
#[derive(Clone, Copy)]
pub enum Version {
    /// `trace 1`, which has no views.
    One,
    /// `trace 2`, which has views.
    Two,
}

impl Version {
    /// The version whose first line this is.
    pub fn of_line(line: &[u8]) -> Option<Version>
        ensures { MatchOption result ((version : versions.Version) → line.now ≢ header_line version)
            (λ version. line.now ≡ header_line (version_in version)) }
    {
        if line == b"trace 1".as_slice() {
            return Some(Version::One);
        }
        if line == b"trace 2".as_slice() {
            return Some(Version::Two);
        }
        None
    }

    /// Whether it has views.
    pub fn has_views(self) -> bool
        ensures { result ≡ has_views (version_in self) }
    {
        match self {
            Version::One => false,
            Version::Two => true,
        }
    }
}
