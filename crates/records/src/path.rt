// The name of an object.
ghost use Rattle.std.specs.Prelude.{◌≡◌, ◌≤◌, length, MatchResult};
ghost use Rattle.records.specs.Limits.{PathLong, of_path, invalid_path};

use crate::bytes64::Bytes64;
use crate::refused::InvalidPath;

// 1 to 64 bytes. Not one type with an attribute's `Key`: the limit and the refusal are others.
#[derive(Clone, Copy, Debug, PartialEq, Eq)]
pub struct Path {
    name: Bytes64,
    ghost some: { 1 ≤ name.len },
}

impl Path {
    ghost use Rattle.records.specs.Bytes.{bytes_of};

    // Another length is refusal 2.
    pub fn new(bytes: &[u8]) -> Result<Path, InvalidPath>
        ensures { MatchResult result (λ p. PathLong (length bytes.now) × (bytes_of p.name ≡ bytes.now)) (λ e. (PathLong (length bytes.now) → ⊥) × (of_path e ≡ invalid_path (length bytes.now))) }
    {
        let length = bytes.len();
        match Bytes64::new(bytes) {
            Some(name) if length >= 1 => Ok(Path { name }),
            _ => Err(InvalidPath { length }),
        }
    }

    pub fn as_slice(&self) -> &[u8]
        ensures { result.now ≡ bytes_of self.now.name }
    {
        self.name.as_slice()
    }
}
