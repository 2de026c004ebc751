// Numbers in groups of seven bits, the lowest first.
ghost use Rattle.std.specs.Prelude.{◌≡◌, ℕ, ◌+◌, ◌%◌, ◌^◌, ◌<◌, ◌≤◌, List, length, MatchOption};
ghost use Rattle.stored_head.specs.Numbers.{Number, NoNumber, NumberFirst, NumberWritten};

use crate::form::Form;
use crate::reader::Reader;

impl<'a> Reader<'a> {
    // The number that comes first; nothing where none below 128^(more + 1) does.
    pub(crate) fn number(&mut self, more: usize) -> Option<u64>
        requires { more ≤ 8 }
        ensures { MatchOption result (NoNumber self.old.left.now more) (λ n. NumberFirst self.old.left.now more n self.new.left.now) }
    {
        let byte = self.byte()? as u64;
        if byte < 128 {
            return Some(byte);
        }
        if more == 0 {
            return None;
        }
        let high = self.number(more - 1)?;
        if high == 0 {
            return None;
        }
        Some(byte - 128 + 128 * high)
    }
}

// How many bytes a number below 128^(more + 1) takes.
pub(crate) fn number_len(n: u64, more: usize) -> usize
    requires below { n < 128 ^ (more + 1) }
    requires few { more ≤ 8 }
    ensures bound { result ≤ more + 1 }
    ensures long { (bs : List ℕ) → Number bs n → length bs ≡ result }
{
    if n < 128 {
        return 1;
    }
    number_len(n / 128, more - 1) + 1
}

// The lowest group of a number that has more.
fn low_group(n: u64) -> u8
    ensures { result ≡ 128 + n % 128 }
{
    (128 + n % 128) as u8
}

// Writes a number below 128^(more + 1).
pub(crate) fn push_number(form: &mut Form<'_>, n: u64, more: usize)
    requires below { n < 128 ^ (more + 1) }
    requires room { (bs : List ℕ) → Number bs n → form.old.len + length bs ≤ length form.old.room.now }
    ensures slice { form.new.room.ghost_name ≡ form.old.room.ghost_name }
    ensures long { length form.new.room.now ≡ length form.old.room.now }
    ensures behind { NumberWritten form.old.room.now form.old.len n form.new.len form.new.room.now }
{
    if n < 128 {
        form.push(n as u8);
        return;
    }
    form.push(low_group(n));
    push_number(form, n / 128, more - 1);
}
