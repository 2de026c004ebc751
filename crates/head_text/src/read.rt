// A head from the words of a line.
ghost use Rattle.std.specs.Prelude.{MatchBool};
ghost use Rattle.head_text.specs.Drafts.{HeadRead, Silent, Speaks};

use crate::draft::Draft;
use crate::no_head::NoHead;
use lines::begins_comment;
use records::Head;
use std::alloc::Global;

// Whether a line with these words is blank, or a comment.
pub fn says_nothing(words: &[&str]) -> bool
    ensures { MatchBool result (Silent words.now) (Speaks words.now) }
{
    match words {
        [] => true,
        [first, ..] => begins_comment(first),
    }
}

// The head that the words of a line say, or the first thing that is wrong with them.
pub fn read_head(heap: Global, words: &[&str]) -> Result<Head, NoHead>
    ensures { HeadRead words.now result }
{
    let mut draft = Draft::new();
    for (i, word) in words.iter().enumerate() {
        // not `map_err`: where its closure captures i, the loop's invariant cannot name i
        match draft.with_word(heap, word) {
            Ok(next) => draft = next,
            Err(wrong) => return Err(NoHead::Word(i + 1, wrong)),
        }
    }
    draft.head()
}
