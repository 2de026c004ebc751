// Reading a stored head.
ghost use Rattle.stored_head.specs.Heads.{NamesRead};

use crate::local_cache_head::LocalCacheHead;
use crate::reader::Reader;
use records::Head;

impl LocalCacheHead {
    // The head that is stored as these bytes, all of them; nothing where no head within its limits is.
    pub fn read(bytes: &[u8]) -> Option<LocalCacheHead>
        ensures { NamesRead bytes.now result }
    {
        let mut reader = Reader { left: bytes };
        let size = reader.number(5)?;
        let time = reader.number(5)?;
        let e_tag = reader.label()?;
        let version = reader.label()?;
        let count = reader.count()?;
        let attributes = reader.attributes(count)?;
        if !reader.left.is_empty() {
            return None;
        }
        let names = Head::new(size, time, e_tag, version, attributes).ok()?;
        Some(LocalCacheHead { names })
    }
}
