// Small uses of the index.
use crate::full::IndexFull;
use crate::index::Index;
use cache::CacheKey;
use records::Path;
use std::test::Fail;

fn path_of(name: &[u8]) -> Result<Path, Fail> {
    Path::new(name).map_err(|_| Fail::new("a path has 1 to 64 bytes"))
}

// Appends keys at time 0. The first has size 1, each next one more.
fn append(index: &mut Index, keys: &[CacheKey]) -> Result<(), IndexFull> {
    for (i, key) in keys.iter().enumerate() {
        index.track_entry_accessed(*key, i + 1, 0)?;
    }
    Ok(())
}

// Whether these are the sizes and times of the tracked keys in their order.
fn shows(index: &Index, expected: &[(usize, i64)]) -> bool {
    let shown = index
        .records()
        .iter()
        .map(|record| (record.size, record.time));
    shown.eq(expected.iter().copied())
}

#[test]
fn uses_and_removals(rt: HostRuntime) -> Result<(), Fail> {
    let mut index = Index::new(rt.alloc())?;
    let path = path_of(b"font")?;
    let head = CacheKey::Head(path);
    let part = CacheKey::Part(path, 0);
    append(&mut index, &[head, part, CacheKey::Part(path, 1)])?;
    index.track_entry_accessed(part, 99, 5)?;
    assert!(rt;
        shows(&index, &[(1, 0), (2, 5), (3, 0)]),
        "a known key keeps its size"
    );
    assert!(rt; index.remove_entry(&head).is_some());
    assert!(rt; shows(&index, &[(3, 0), (2, 5)]), "the last is in the gap");
    assert!(rt; index.total() == 5);
    Ok(())
}

#[test]
fn paths(rt: HostRuntime) -> Result<(), Fail> {
    let mut index = Index::new(rt.alloc())?;
    let gone = path_of(b"gone")?;
    let kept = path_of(b"kept")?;
    let parts = [CacheKey::Part(gone, 7), CacheKey::Part(gone, 3)];
    append(&mut index, &parts)?;
    let more = [
        CacheKey::Head(gone),
        CacheKey::Head(kept),
        CacheKey::Part(kept, 3),
        CacheKey::Part(kept, 0),
    ];
    append(&mut index, &more)?;
    index.remove_path(gone);
    assert!(rt;
        shows(&index, &[(2, 0), (3, 0), (4, 0)]),
        "the head went first, then part 3, then part 7"
    );
    Ok(())
}

#[test]
fn full(rt: HostRuntime) -> Result<(), Fail> {
    let mut index = Index::new(rt.alloc())?;
    let path = path_of(b"font")?;
    for number in 0..256usize {
        index.track_entry_accessed(CacheKey::Part(path, number), 1, 1)?;
    }
    assert!(rt;
        index.track_entry_accessed(CacheKey::Head(path), 1, 1) == Err(IndexFull),
        "no room for a new key"
    );
    assert!(rt;
        index
            .track_entry_accessed(CacheKey::Part(path, 255), 1, 2)
            .is_ok(),
        "a known key needs none"
    );
    Ok(())
}

#[test]
fn sentence(rt: HostRuntime) -> Result<(), Fail> {
    let text = format!(in rt.alloc(); "{IndexFull}")?;
    assert!(rt; text.as_str() == "256 keys are tracked");
    Ok(())
}
