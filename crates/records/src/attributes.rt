// The attributes of a head, in the order in which they were given.
ghost use Rattle.std.specs.Prelude.{◌≡◌, ◌+◌, ◌<◌, ◌≤◌, [], ◌∷◌, ◌++◌, length, MatchResult};
ghost use Rattle.records.specs.Limits.{of_head, invalid_head};

use crate::attribute::{Attribute, AttributeEntry};
use crate::bytes64::Bytes64;
use crate::refused::InvalidHead;

// At most 8 attributes, in an array, since nothing here allocates and a head is copied. No `PartialEq`: nothing
// compares heads, and a derive would look behind the last attribute.
#[derive(Clone, Copy, Debug)]
pub struct Attributes {
    entries: [AttributeEntry; 8],
    len: usize,
    ghost whole: { length entries ≡ 8 },
    ghost few: { len ≤ 8 },
}

impl Attributes {
    ghost use Rattle.records.specs.Bytes.{entries_of};

    pub fn new() -> Attributes
        ensures { (result.len ≡ 0) × (entries_of result ≡ []) }
    {
        let blank = AttributeEntry {
            attribute: Attribute::ContentType,
            value: Bytes64::empty(),
        };
        let entries = [blank; 8];
        Attributes { entries, len: 0 }
    }

    // One more at the end; a ninth is refusal 3.
    pub fn push(&mut self, entry: AttributeEntry) -> Result<(), InvalidHead>
        ensures { MatchResult result (λ _. (self.old.len < 8) × (self.new.len ≡ self.old.len + 1) × (entries_of self.new ≡ entries_of self.old ++ (entry ∷ []))) (λ e. (self.old.len ≡ 8) × (of_head e ≡ invalid_head 5 9) × (self.new ≡ self.old)) }
    {
        let len = self.len;
        if len >= 8 {
            return Err(InvalidHead::Attributes(9));
        }
        self.entries[len] = entry;
        self.len = len + 1;
        Ok(())
    }

    pub fn as_slice(&self) -> &[AttributeEntry]
        ensures value { result.now ≡ entries_of self.now }
        ensures len { (length result.now ≡ self.now.len) × (length result.now ≤ 8) }
    {
        &self.entries[0..self.len]
    }
}
