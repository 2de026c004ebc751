// The attributes of an object.
ghost use Rattle.std.specs.Prelude.{◌≡◌, ◌<◌, ◌≤◌, length, MatchResult};
ghost use Rattle.records.specs.Limits.{KeyLong, of_head, invalid_head};

use crate::bytes64::Bytes64;
use crate::refused::InvalidHead;

// The name of an attribute: 1 to 32 bytes.
#[derive(Clone, Copy, Debug, PartialEq, Eq)]
pub struct Key {
    name: Bytes64,
    ghost long: { KeyLong name.len },
}

impl Key {
    ghost use Rattle.records.specs.Bytes.{bytes_of};

    // Another length is refusal 3.
    pub fn new(bytes: &[u8]) -> Result<Key, InvalidHead>
        ensures { MatchResult result (λ k. KeyLong (length bytes.now) × (bytes_of k.name ≡ bytes.now)) (λ e. (KeyLong (length bytes.now) → ⊥) × (of_head e ≡ invalid_head 6 (length bytes.now))) }
    {
        let length = bytes.len();
        match Bytes64::new(bytes) {
            Some(name) if (1..=32).contains(&length) => Ok(Key { name }),
            _ => Err(InvalidHead::Key(length)),
        }
    }

    pub fn as_slice(&self) -> &[u8]
        ensures value { result.now ≡ bytes_of self.now.name }
        ensures long { KeyLong (length result.now) }
    {
        self.name.as_slice()
    }
}

// What an attribute is: one of five known ones, or metadata under a key of its own.
#[derive(Clone, Copy, Debug, PartialEq, Eq)]
pub enum Attribute {
    CacheControl,
    ContentDisposition,
    ContentEncoding,
    ContentLanguage,
    ContentType,
    Metadata(Key),
}

// An attribute and its value.
#[derive(Clone, Copy, Debug, PartialEq, Eq)]
pub struct AttributeEntry {
    pub attribute: Attribute,
    pub value: Bytes64,
}

impl AttributeEntry {
    ghost use Rattle.records.specs.Bytes.{bytes_of};

    // A value of more than 64 bytes is refusal 3.
    pub fn new(attribute: Attribute, value: &[u8]) -> Result<AttributeEntry, InvalidHead>
        ensures { MatchResult result (λ e. (length value.now ≤ 64) × (e.attribute ≡ attribute) × (bytes_of e.value ≡ value.now)) (λ e. (64 < length value.now) × (of_head e ≡ invalid_head 7 (length value.now))) }
    {
        let value = Bytes64::new(value).ok_or(InvalidHead::Value(value.len()))?;
        Ok(AttributeEntry { attribute, value })
    }
}
