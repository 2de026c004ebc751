// An e_tag or a version, which may be absent.
ghost use Rattle.std.specs.Prelude.{◌≡◌, ◌<◌, ◌≤◌, length, Some, None, MatchOption, MatchResult};
ghost use Rattle.std.specs.Option.{option_map, unwrap_or};
ghost use Rattle.records.specs.Padded.{Padded};
ghost use Rattle.records.specs.Limits.{of_head, invalid_head, label_reason};

use crate::bytes64::Bytes64;
use crate::refused::InvalidHead;

// Which of the two a label is.
#[derive(Clone, Copy, Debug, PartialEq, Eq)]
pub enum LabelKind {
    ETag,
    Version,
}

// At most 64 bytes, or absent: the length says which, the form that docs/DECISIONS.md names for it. Present with no
// bytes is not absent.
#[derive(Clone, Copy, Debug, PartialEq, Eq)]
pub struct Label {
    len: Option<usize>,
    bytes: [u8; 64],
    ghost padded: { Padded 64 (unwrap_or len 0) bytes },
}

impl LabelKind {
    // The refusal of a label of too many bytes.
    fn too_long(self, length: usize) -> InvalidHead
        ensures { of_head result ≡ invalid_head (label_reason self) length }
    {
        match self {
            LabelKind::ETag => InvalidHead::ETag(length),
            LabelKind::Version => InvalidHead::Version(length),
        }
    }
}

impl Label {
    ghost use Rattle.records.specs.Bytes.{label_of};

    pub fn absent() -> Label
        ensures { label_of result ≡ None }
    {
        Label {
            len: None,
            bytes: [0; 64],
        }
    }

    // These bytes, where there are at most 64.
    pub fn present(bytes: &[u8]) -> Option<Label>
        ensures { MatchOption result (64 < length bytes.now) (λ l. (length bytes.now ≤ 64) × (label_of l ≡ Some bytes.now)) }
    {
        let held = Bytes64::new(bytes)?;
        let bytes = held.bytes;
        Some(Label {
            len: Some(held.len),
            bytes,
        })
    }

    // An e_tag or a version of these bytes; more than 64 are refusal 3.
    pub fn new(kind: LabelKind, bytes: &[u8]) -> Result<Label, InvalidHead>
        ensures { MatchResult result (λ l. (length bytes.now ≤ 64) × (label_of l ≡ Some bytes.now)) (λ e. (64 < length bytes.now) × (of_head e ≡ invalid_head (label_reason kind) (length bytes.now))) }
    {
        Label::present(bytes).ok_or(kind.too_long(bytes.len()))
    }

    pub fn get(&self) -> Option<&[u8]>
        ensures { option_map (λ x. x.now) result ≡ label_of self.now }
    {
        // `map` with a closure would need the bound on the length in a clause of its own
        match self.len {
            None => None,
            Some(len) => Some(&self.bytes[0..len]),
        }
    }
}
