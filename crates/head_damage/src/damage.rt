// Every damaged form of some bytes.
ghost use Rattle.std.specs.Prelude.{◌≡◌, ◌<◌, length};

use crate::count::Count;
use crate::tries::try_form;

// Every truncation.
pub fn cut_short(bytes: &[u8]) -> Count
    ensures { result.forms ≡ length bytes.now }
{
    let mut count = Count::new();
    for end in 0..bytes.len() {
        count.add(try_form(&bytes[..end]));
    }
    count
}

// Every other value of one byte; the bytes are then as they were.
fn changed_at(bytes: &mut [u8], i: usize, count: &mut Count)
    requires { i < length bytes.old }
    ensures { bytes.new ≡ bytes.old }
{
    let was = bytes[i];
    for step in 1..=255u8 {
        bytes[i] = was.wrapping_add(step);
        count.add(try_form(bytes));
    }
    bytes[i] = was;
}

// Every other value of every byte; the bytes are then as they were.
pub fn changed(bytes: &mut [u8]) -> Count
    ensures { bytes.new ≡ bytes.old }
{
    let mut count = Count::new();
    // by its index: the byte is changed in its place, and all bytes are tried
    for i in 0..bytes.len() {
        changed_at(bytes, i, &mut count);
    }
    count
}
