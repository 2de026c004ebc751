// The stored form of a whole head.
ghost use Rattle.std.specs.Prelude.{ℕ, ◌≤◌, List, length};
ghost use Rattle.stored_head.specs.Heads.{data_of, Stored, Saved, Long, SaveAnswer};

use crate::attributes::{attributes_len, push_attributes};
use crate::bytes::{label_len, push_label};
use crate::form::Form;
use crate::numbers::{number_len, push_number};
use records::{BufferTooShort, Head};

// How many bytes the stored form of a head has, at most 927.
pub fn stored_len(head: &Head) -> usize
    ensures long { Long (data_of head.now) result }
    ensures bound { result ≤ 927 }
{
    let numbers = number_len(head.size(), 5) + number_len(head.time(), 5);
    let labels = label_len(&head.e_tag) + label_len(&head.version);
    numbers + labels + 1 + attributes_len(head.attributes.as_slice())
}

// Writes the stored form of a head at the beginning of a slice that has room for it, and answers how many bytes
// it has.
fn write_form(head: &Head, out: &mut [u8]) -> usize
    requires { (bs : List ℕ) → Stored (data_of head.now) bs → length bs ≤ length out.old }
    ensures { Saved out.old (data_of head.now) result out.new }
{
    let mut form = Form { room: out, len: 0 };
    push_number(&mut form, head.size(), 5);
    push_number(&mut form, head.time(), 5);
    push_label(&mut form, &head.e_tag);
    push_label(&mut form, &head.version);
    let entries = head.attributes.as_slice();
    form.push(entries.len() as u8);
    push_attributes(&mut form, entries);
    form.len
}

// Writes the stored form of a head at the beginning of a slice, and answers how many bytes it has.
// A slice that is too short is refusal 4 and stays as it was.
pub fn save(head: &Head, out: &mut [u8]) -> Result<usize, BufferTooShort>
    ensures { SaveAnswer out.old (data_of head.now) result out.new }
{
    let needed = stored_len(head);
    let length = out.len();
    if length < needed {
        return Err(BufferTooShort { length, needed });
    }
    Ok(write_form(head, out))
}
