// Up to 64 bytes, held in place.
ghost use Rattle.std.specs.Prelude.{◌≡◌, ◌<◌, ◌≤◌, [], length, MatchOption};
ghost use Rattle.std.specs.Cmp.{on_equiv, on_per, partial_equiv_from_equiv};
ghost use Rattle.std.specs.Cmp.Lexicographic.{nat_list_eq_equiv};
ghost use Rattle.std.specs.Str.{bytes_eq};
ghost use Rattle.records.specs.Padded.{Padded};

// Equal contents are equal values: the bytes past the length are 0. An array with a length, since nothing here
// allocates and keys are copied; no `impl Model`, since functions that pass a path on have then no proof yet.
#[derive(Clone, Copy, Debug)]
pub struct Bytes64 {
    pub(crate) bytes: [u8; 64],
    pub(crate) len: usize,
    ghost padded: { Padded 64 len bytes },
}

impl Bytes64 {
    ghost use Rattle.records.specs.Bytes.{bytes_of};

    // The bytes, where there are at most 64.
    pub fn new(bytes: &[u8]) -> Option<Bytes64>
        ensures { MatchOption result (64 < length bytes.now) (λ b. (length bytes.now ≤ 64) × (bytes_of b ≡ bytes.now)) }
    {
        let len = bytes.len();
        if len > 64 {
            return None;
        }
        let mut held = [0; 64];
        held[0..len].copy_from_slice(bytes);
        Some(Bytes64 { bytes: held, len })
    }

    pub fn empty() -> Bytes64
        ensures { bytes_of result ≡ [] }
    {
        Bytes64 {
            bytes: [0; 64],
            len: 0,
        }
    }

    pub fn as_slice(&self) -> &[u8]
        ensures value { result.now ≡ bytes_of self.now }
        ensures len { (length result.now ≡ self.now.len) × (length result.now ≤ 64) }
    {
        &self.bytes[0..self.len]
    }
}

// By the bytes that are held, where a derive would compare all 64.
impl PartialEq for Bytes64 {
    ghost use Rattle.records.specs.Bytes.{bytes_of};

    ghost eq = { λ a b. bytes_eq (bytes_of a) (bytes_of b) };

    ghost laws = { on_per bytes_of (partial_equiv_from_equiv nat_list_eq_equiv) };

    fn eq(&self, other: &Bytes64) -> bool {
        self.as_slice() == other.as_slice()
    }
}

impl Eq for Bytes64 {
    ghost use Rattle.records.specs.Bytes.{bytes_of};

    ghost laws = { on_equiv bytes_of nat_list_eq_equiv };
}
