//! Which file stands at a name.

ghost use Rattle.std.specs.Prelude.{◌↔◌, IsTrue};
ghost use Rattle.bike_console.specs.Links.{IsOne};

use std::fs;
use std::os::unix::fs::MetadataExt;

/// A regular file, as it was found.
#[derive(Clone, Copy, Debug)]
pub(crate) struct FoundFile {
    /// The device that it stands on.
    device: u64,
    /// Its number there.
    number: u64,
    /// How many bytes it has.
    pub(crate) length: usize,
}

impl FoundFile {
    /// The regular file that a name leads to; none where there is no such file.
    pub(crate) fn at(rt: &HostRuntime, name: &str) -> Option<FoundFile> {
        match fs::metadata(rt, name) {
            Ok(found) if found.is_file() => Some(FoundFile {
                device: found.dev(),
                number: found.ino(),
                length: found.len() as usize,
            }),
            _ => None,
        }
    }

    /// Whether both are one file.
    pub(crate) fn is_one(self, other: FoundFile) -> bool
        ensures { IsTrue result ↔ IsOne self other }
    {
        self.device == other.device && self.number == other.number
    }

    /// Whether a name still leads to this file.
    pub(crate) fn is_at(self, rt: &HostRuntime, name: &str) -> bool {
        match FoundFile::at(rt, name) {
            Some(found) => found.is_one(self),
            None => false,
        }
    }
}
