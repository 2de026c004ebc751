// What the words of a line have said so far.
ghost use Rattle.records.specs.Bytes.{label_of};
ghost use Rattle.records.specs.Limits.{label_reason};
ghost use Rattle.head_text.specs.Drafts.{Blank, NumberRead, LabelRead, EntryRead, NamedRead, WordRead, DraftRead};

use crate::no_head::{NoHead, Wrong};
use crate::said;
use lines::number;
use records::{Attributes, Head, Label, LabelKind};
use std::alloc::Global;

#[derive(Clone, Copy, Debug)]
pub(crate) struct Draft {
    size: Option<u64>,
    time: Option<u64>,
    e_tag: Label,
    version: Label,
    attributes: Attributes,
}

// A number, unless one is known.
fn one_number(known: Option<u64>, text: &str) -> Result<u64, Wrong>
    ensures { NumberRead known text.now result }
{
    if known.is_some() {
        return Err(Wrong::Twice);
    }
    number(text).ok_or(Wrong::NotANumber)
}

// An e_tag or a version, unless one is known.
fn one_label(kind: LabelKind, known: &Label, heap: Global, text: &str) -> Result<Label, Wrong>
    ensures { LabelRead (label_reason kind) (label_of known.now) text.now result }
{
    if known.get().is_some() {
        return Err(Wrong::Twice);
    }
    said::label(kind, heap, text)
}

// One more attribute behind those that are known.
fn one_more(known: Attributes, heap: Global, name: &str, text: &str) -> Result<Attributes, Wrong>
    ensures { EntryRead known name.now text.now result }
{
    let entry = said::entry(heap, name, text)?;
    let mut attributes = known;
    attributes.push(entry)?;
    Ok(attributes)
}

impl Draft {
    pub(crate) fn new() -> Draft
        ensures { Blank result }
    {
        Draft {
            size: None,
            time: None,
            e_tag: Label::absent(),
            version: Label::absent(),
            attributes: Attributes::new(),
        }
    }

    // The draft with what one more word says.
    pub(crate) fn with_word(self, heap: Global, word: &str) -> Result<Draft, Wrong>
        ensures { WordRead self word.now result }
    {
        // both cases have a meaning of their own, so that `ok_or` is no plainer
        match word.split_once('=') {
            Some((name, text)) => self.with_named(heap, name, text),
            None => Err(Wrong::NoEquals),
        }
    }

    // The draft with what `NAME=TEXT` says.
    fn with_named(self, heap: Global, name: &str, text: &str) -> Result<Draft, Wrong>
        ensures { NamedRead self name.now text.now result }
    {
        let mut draft = self;
        match name {
            "size" => draft.size = Some(one_number(self.size, text)?),
            "time" => draft.time = Some(one_number(self.time, text)?),
            "etag" => draft.e_tag = one_label(LabelKind::ETag, &self.e_tag, heap, text)?,
            "version" => draft.version = one_label(LabelKind::Version, &self.version, heap, text)?,
            _ => draft.attributes = one_more(self.attributes, heap, name, text)?,
        }
        Ok(draft)
    }

    // The head that the words say.
    pub(crate) fn head(self) -> Result<Head, NoHead>
        ensures { DraftRead self result }
    {
        let size = self.size.ok_or(NoHead::NoSize)?;
        let time = self.time.unwrap_or(0);
        Ok(Head::new(size, time, self.e_tag, self.version, self.attributes)?)
    }
}
