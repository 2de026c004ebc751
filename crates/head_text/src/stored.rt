// Stored bytes, written as decimal numbers.
ghost use Rattle.std.specs.Prelude.{Ok, Err, MatchOption};
ghost use Rattle.head_text.specs.Bytes.{Counts, Countless, Lists, FirstCountless};

use crate::no_head::NoBytes;
use std::alloc::Global;

// The byte that a word writes; `lines::number` reads 64 bits.
fn byte(word: &str) -> Option<u8>
    ensures { MatchOption result (Countless word.now) (λ b. Counts word.now b) }
{
    word.parse().ok()
}

// The bytes that the words write.
pub fn read_bytes(heap: Global, words: &[&str]) -> Result<Vec<u8>, NoBytes>
    ensures { elim result [ Ok v ↦ Lists words.now v.items | Err e ↦ elim e [ NoBytes.Word n ↦ FirstCountless words.now n | NoBytes.NoMemory ↦ Unit {0} ] ] }
{
    let mut bytes = Vec::new(heap);
    for (i, word) in words.iter().enumerate() {
        // not `ok_or(..)?`, whose clauses do not tell which byte the word writes
        let Some(b) = byte(word) else {
            return Err(NoBytes::Word(i + 1));
        };
        bytes.push(b)?;
    }
    Ok(bytes)
}
