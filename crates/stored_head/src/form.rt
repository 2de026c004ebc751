// Where a stored form is put together: at the beginning of the slice that it is for.
ghost use Rattle.std.specs.Prelude.{◌≡◌, ◌+◌, ◌<◌, ◌≤◌, [], ◌∷◌, length};
ghost use Rattle.stored_head.specs.Forms.{Wrote};

// The slice, and how many of its bytes are written. No `impl Model`, as for a `Reader`.
#[derive(Drop)]
pub(crate) struct Form<'a> {
    pub(crate) room: &'a mut [u8],
    pub(crate) len: usize,
}

impl<'a> Form<'a> {
    // One byte more.
    pub(crate) fn push(&mut self, byte: u8)
        requires { self.old.len < length self.old.room.now }
        ensures slice { self.new.room.ghost_name ≡ self.old.room.ghost_name }
        ensures long { length self.new.room.now ≡ length self.old.room.now }
        ensures behind { Wrote self.old.room.now self.old.len (byte ∷ []) self.new.len self.new.room.now }
    {
        self.room[self.len] = byte;
        self.len += 1;
    }

    // These bytes more.
    pub(crate) fn extend(&mut self, bytes: &[u8])
        requires { self.old.len + length bytes.now ≤ length self.old.room.now }
        ensures slice { self.new.room.ghost_name ≡ self.old.room.ghost_name }
        ensures long { length self.new.room.now ≡ length self.old.room.now }
        ensures behind { Wrote self.old.room.now self.old.len bytes.now self.new.len self.new.room.now }
    {
        let end = self.len + bytes.len();
        self.room[self.len..end].copy_from_slice(bytes);
        self.len = end;
    }
}
