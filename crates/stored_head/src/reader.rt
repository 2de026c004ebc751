// Reading stored bytes from the front.
ghost use Rattle.std.specs.Prelude.{◌≡◌, ◌<◌, [], ◌∷◌, ◌++◌, length, MatchOption};

// What is left to read. No `impl Model`: it is a slice with a lifetime, which its contracts name in a word.
#[derive(Clone, Copy)]
pub(crate) struct Reader<'a> {
    pub(crate) left: &'a [u8],
}

impl<'a> Reader<'a> {
    // The next byte.
    pub(crate) fn byte(&mut self) -> Option<u8>
        ensures { MatchOption result (self.old.left.now ≡ []) (λ b. self.old.left.now ≡ b ∷ self.new.left.now) }
    {
        let [byte, rest @ ..] = self.left else {
            return None;
        };
        self.left = rest;
        Some(*byte)
    }

    // The next bytes, so many.
    pub(crate) fn bytes(&mut self, len: usize) -> Option<&'a [u8]>
        ensures { MatchOption result (length self.old.left.now < len) (λ bs. (length bs.now ≡ len) × (self.old.left.now ≡ bs.now ++ self.new.left.now)) }
    {
        let (bytes, rest) = self.left.split_at_checked(len)?;
        self.left = rest;
        Some(bytes)
    }
}
