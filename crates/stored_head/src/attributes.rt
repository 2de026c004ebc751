// The attributes of a stored head, each by its name and its value.
ghost use Rattle.std.specs.Prelude.{◌≡◌, ◌+◌, ◌≤◌, length, MatchOption};
ghost use Rattle.records.specs.Bytes.{entries_of};
ghost use Rattle.stored_head.specs.Forms.{Wrote};
ghost use Rattle.stored_head.specs.Heads.{pairs, attributes_form, NoEntry, EntryFirst, NoAttributes, AttributesFirst};

use crate::bytes::push_sized;
use crate::form::Form;
use crate::reader::Reader;
use records::{Attribute, AttributeEntry, Attributes, Key};

// How many bytes they take.
pub(crate) fn attributes_len(entries: &[AttributeEntry]) -> usize
    requires { length entries.now ≤ 8 }
    ensures value { result ≡ length (attributes_form (pairs entries.now)) }
    ensures bound { result ≤ 784 }
{
    let mut len = 0;
    for entry in entries {
        len += 2 + entry.attribute.name().len() + entry.value.as_slice().len();
    }
    len
}

// Writes them one after the other.
pub(crate) fn push_attributes(form: &mut Form<'_>, entries: &[AttributeEntry])
    requires { form.old.len + length (attributes_form (pairs entries.now)) ≤ length form.old.room.now }
    ensures slice { form.new.room.ghost_name ≡ form.old.room.ghost_name }
    ensures long { length form.new.room.now ≡ length form.old.room.now }
    ensures behind { Wrote form.old.room.now form.old.len (attributes_form (pairs entries.now)) form.new.len form.new.room.now }
{
    for entry in entries {
        push_sized(form, entry.attribute.name());
        push_sized(form, entry.value.as_slice());
    }
}

impl<'a> Reader<'a> {
    // The attribute that comes first, as metadata under its name.
    fn entry(&mut self) -> Option<AttributeEntry>
        ensures { MatchOption result (NoEntry self.old.left.now) (λ e. EntryFirst self.old.left.now e self.new.left.now) }
    {
        let name = self.sized(1, 32)?;
        let value = self.sized(0, 64)?;
        let key = Key::new(name.as_slice()).ok()?;
        Some(AttributeEntry {
            attribute: Attribute::Metadata(key),
            value,
        })
    }

    // The attributes that come first, so many.
    pub(crate) fn attributes(&mut self, count: usize) -> Option<Attributes>
        requires { count ≤ 8 }
        ensures { MatchOption result (NoAttributes self.old.left.now count) (λ a. AttributesFirst self.old.left.now count (entries_of a) self.new.left.now) }
    {
        let mut attributes = Attributes::new();
        for _read in 0..count {
            attributes.push(self.entry()?).unwrap();
        }
        Some(attributes)
    }
}
