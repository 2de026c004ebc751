// What the text behind a `=` says, and the key before it.
ghost use Rattle.std.specs.Prelude.{◌≡◌, ◌++◌, codes, MatchOption, MatchResult};
ghost use Rattle.records.specs.Bytes.{bytes_of};
ghost use Rattle.records.specs.Limits.{label_reason};
ghost use Rattle.head_text.specs.Texts.{Spells};
ghost use Rattle.head_text.specs.Said.{Unspelled, Oversized, Labels, Unkeyed, Unmarked, Means, Meaningless, Enters, Unentered};

use crate::escape::unescaped;
use crate::no_head::Wrong;
use records::{Attribute, AttributeEntry, Key, Label, LabelKind};
use std::alloc::Global;

// The bytes that a text writes.
fn bytes_of(heap: Global, text: &str) -> Result<Vec<u8>, Wrong>
    ensures { MatchResult result (λ v. Spells text.now v.items) (λ e. Unspelled text.now e) }
{
    unescaped(heap, text.as_bytes())?.ok_or(Wrong::NoByte)
}

// An e_tag or a version; more than 64 bytes are refusal 3. This and the next two are two lines each, and no closure
// would make them fewer. What allocates takes `heap`.
pub(crate) fn label(kind: LabelKind, heap: Global, text: &str) -> Result<Label, Wrong>
    ensures { MatchResult result (λ l. Labels text.now l) (λ e. Oversized (label_reason kind) text.now e) }
{
    let bytes = bytes_of(heap, text)?;
    Label::new(kind, bytes.as_slice()).map_err(Wrong::Limit)
}

// An attribute with the value that a text writes; one of more than 64 bytes is refusal 3.
fn valued(attribute: Attribute, heap: Global, text: &str) -> Result<AttributeEntry, Wrong>
    ensures { MatchResult result (λ x. (x.attribute ≡ attribute) × Spells text.now (bytes_of x.value)) (λ e. Oversized 7 text.now e) }
{
    let bytes = bytes_of(heap, text)?;
    AttributeEntry::new(attribute, bytes.as_slice()).map_err(Wrong::Limit)
}

// An attribute's key of no byte, or of more than 32, is refusal 3.
fn key(heap: Global, text: &str) -> Result<Key, Wrong>
    ensures { MatchResult result (λ k. Spells text.now (bytes_of k.name)) (λ e. Unkeyed text.now e) }
{
    let bytes = bytes_of(heap, text)?;
    Key::new(bytes.as_slice()).map_err(Wrong::Limit)
}

// What stands behind `metadata:`.
fn behind_mark(name: &str) -> Option<&str>
    ensures { MatchOption result (Unmarked name.now) (λ own. name.now ≡ codes "metadata:" ++ own.now) }
{
    name.strip_prefix("metadata:")
}

// The attribute that a name means.
fn attribute(heap: Global, name: &str) -> Result<Attribute, Wrong>
    ensures { MatchResult result (λ a. Means name.now a) (λ e. Meaningless name.now e) }
{
    match behind_mark(name) {
        Some(own) => Ok(Attribute::Metadata(key(heap, own)?)),
        None => Ok(Attribute::named(key(heap, name)?)),
    }
}

// The attribute and its value that `NAME=TEXT` says.
pub(crate) fn entry(heap: Global, name: &str, text: &str) -> Result<AttributeEntry, Wrong>
    ensures { MatchResult result (λ x. Enters name.now text.now x) (λ e. Unentered name.now text.now e) }
{
    valued(attribute(heap, name)?, heap, text)
}
