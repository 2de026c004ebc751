// Heads as text, one a line.
//
// Uses `ranges`, `lines` and `records`. Programs that take heads from people use it.
// A head is words with white space between them: `size=N`, `time=N`, `etag=TEXT`, `version=TEXT`, and an
// attribute for every other `KEY=TEXT`. One of the five known names gives that kind, another key metadata, and
// `metadata:KEY=TEXT` is metadata under any key. In a key and a text `%` and two hex digits write a byte. A line
// whose first word begins with `#` is a comment.
// Promises: `read_head` answers exactly the head that the words say, or the first word that is wrong and what is
// wrong with it, or which limit the size or the time breaks, unless memory fails; `read_bytes` answers exactly
// the bytes that the words write, or the first word that writes none; `unescaped` the bytes that a text writes,
// or that it writes none. What `Written` and the messages print is run and compared, and not proved.
#![tactic(auto)]

mod draft;
mod escape;
mod messages;
mod no_head;
mod read;
mod said;
mod stored;
mod written;

pub use escape::unescaped;
pub use no_head::{NoBytes, NoHead, Wrong};
pub use read::{read_head, says_nothing};
pub use stored::read_bytes;
pub use written::Written;
