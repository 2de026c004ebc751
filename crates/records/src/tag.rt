// What a call says of itself, and the requests that carry it.
ghost use Rattle.std.specs.Prelude.{◌≡◌, false};

// The component that makes a call.
#[derive(Clone, Copy, Debug, PartialEq, Eq)]
pub enum TableStoreKind {
    // the primary store: foreground reads and flushes
    Main,
    // a read-only store
    Reader,
    // the compactor's store
    Compactor,
    // the garbage collector's store
    GC,
}

// What the called object is.
#[derive(Clone, Copy, Debug, Default, PartialEq, Eq, Hash)]
pub enum SstType {
    #[default]
    Compacted,
    Wal,
}

// The tag of a call. `retry` marks a read that is made again since what it brought was bad.
#[derive(Clone, Copy, Debug, PartialEq, Eq)]
pub struct ObjectStoreCallTag {
    pub kind: TableStoreKind,
    pub sst_type: SstType,
    pub retry: bool,
}

impl ObjectStoreCallTag {
    // A tag without a retry mark.
    pub fn new(kind: TableStoreKind, sst_type: SstType) -> ObjectStoreCallTag
        ensures { (result.kind ≡ kind) × (result.sst_type ≡ sst_type) × (result.retry ≡ false) }
    {
        ObjectStoreCallTag {
            kind,
            sst_type,
            retry: false,
        }
    }
}
