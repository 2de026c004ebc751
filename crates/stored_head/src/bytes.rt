// Byte strings with their lengths. A length is at most 64, and so a number of one group.
ghost use Rattle.std.specs.Prelude.{◌≡◌, ◌+◌, ◌<◌, ◌≤◌, ◌∷◌, ◌++◌, length, MatchOption};
ghost use Rattle.records.specs.Bytes.{bytes_of, label_of};
ghost use Rattle.stored_head.specs.Forms.{Wrote, sized, label_form, NoSized, SizedFirst, NoLabel, LabelFirst, NoCount, CountFirst};

use crate::form::Form;
use crate::reader::Reader;
use records::{Bytes64, Label};

// A present e_tag or version of this many bytes is marked by one more; 0 is absent.
fn present_mark(len: usize) -> u8
    requires { len ≤ 64 }
    ensures { result ≡ len + 1 }
{
    (len + 1) as u8
}

// One byte, and bytes behind it.
fn push_marked(form: &mut Form<'_>, mark: u8, bytes: &[u8])
    requires { form.old.len + length (mark ∷ bytes.now) ≤ length form.old.room.now }
    ensures slice { form.new.room.ghost_name ≡ form.old.room.ghost_name }
    ensures long { length form.new.room.now ≡ length form.old.room.now }
    ensures behind { Wrote form.old.room.now form.old.len (mark ∷ bytes.now) form.new.len form.new.room.now }
{
    form.push(mark);
    form.extend(bytes);
}

// A key or a value.
pub(crate) fn push_sized(form: &mut Form<'_>, bytes: &[u8])
    requires few { length bytes.now ≤ 64 }
    requires room { form.old.len + length (sized bytes.now) ≤ length form.old.room.now }
    ensures slice { form.new.room.ghost_name ≡ form.old.room.ghost_name }
    ensures long { length form.new.room.now ≡ length form.old.room.now }
    ensures behind { Wrote form.old.room.now form.old.len (sized bytes.now) form.new.len form.new.room.now }
{
    push_marked(form, bytes.len() as u8, bytes);
}

// An e_tag or a version.
pub(crate) fn push_label(form: &mut Form<'_>, label: &Label)
    requires { form.old.len + length (label_form (label_of label.now)) ≤ length form.old.room.now }
    ensures slice { form.new.room.ghost_name ≡ form.old.room.ghost_name }
    ensures long { length form.new.room.now ≡ length form.old.room.now }
    ensures behind { Wrote form.old.room.now form.old.len (label_form (label_of label.now)) form.new.len form.new.room.now }
{
    match label.get() {
        Some(bytes) => push_marked(form, present_mark(bytes.len()), bytes),
        None => push_marked(form, 0, &[]),
    }
}

// How many bytes an e_tag or a version takes.
pub(crate) fn label_len(label: &Label) -> usize
    ensures value { result ≡ length (label_form (label_of label.now)) }
    ensures bound { result ≤ 65 }
{
    match label.get() {
        Some(bytes) => bytes.len() + 1,
        None => 1,
    }
}

impl<'a> Reader<'a> {
    // The key or value that comes first, of `least` to `most` bytes.
    pub(crate) fn sized(&mut self, least: usize, most: usize) -> Option<Bytes64>
        requires { most ≤ 64 }
        ensures { MatchOption result (NoSized self.old.left.now least most) (λ b. SizedFirst self.old.left.now least most (bytes_of b) self.new.left.now) }
    {
        let len = self.byte()? as usize;
        if !(least..=most).contains(&len) {
            return None;
        }
        Bytes64::new(self.bytes(len)?)
    }

    // The number of attributes that comes first, one byte of at most 8.
    pub(crate) fn count(&mut self) -> Option<usize>
        ensures { MatchOption result (NoCount self.old.left.now) (λ n. CountFirst self.old.left.now n self.new.left.now) }
    {
        let count = self.byte()? as usize;
        if count > 8 {
            return None;
        }
        Some(count)
    }

    // The e_tag or version that comes first.
    pub(crate) fn label(&mut self) -> Option<Label>
        ensures { MatchOption result (NoLabel self.old.left.now) (λ l. LabelFirst self.old.left.now (label_of l) self.new.left.now) }
    {
        let mark = self.byte()?;
        if mark == 0 {
            return Some(Label::absent());
        }
        Label::present(self.bytes(mark as usize - 1)?)
    }
}
