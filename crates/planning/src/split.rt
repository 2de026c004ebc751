// A line in words.
ghost use Rattle.std.specs.Prelude.{IfOk};
ghost use Rattle.planning.specs.Lines.{LineOf};

use lines::begins_comment;
use std::alloc::{AllocError, Global};

// The words of a line, up to the first that begins with `#`; a comment or a blank line has none.
pub fn words_of(heap: Global, line: &str) -> Result<Vec<&str>, AllocError>
    ensures { IfOk result (λ v. LineOf line.now v.items) }
{
    line.split_whitespace()
        .take_while(|word| !begins_comment(word))
        .collect(heap)
}
