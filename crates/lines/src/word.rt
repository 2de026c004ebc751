// What one word of a line says.
ghost use Rattle.std.specs.Prelude.{MatchBool, MatchOption};
ghost use Rattle.lines.specs.Words.{Hashed, Plain, Number, NoNumber};

// Whether a comment begins with `word`.
pub fn begins_comment(word: &str) -> bool
    ensures { MatchBool result (Hashed word.now) (Plain word.now) }
{
    word.starts_with('#')
}

// The number that a word writes in decimal.
pub fn number(word: &str) -> Option<u64>
    ensures { MatchOption result (NoNumber word.now) (λ n. Number word.now n) }
{
    word.parse().ok()
}
