// An evicting cache as it is made. Saves, reads and deletes want a cache below.
use crate::EvictingCache;
use hosts::CountingHost;
use std::test::Fail;

#[test]
fn begins_with_nothing(rt: HostRuntime) -> Result<(), Fail> {
    let mut cache = EvictingCache::new(rt.alloc(), 7u8, CountingHost::new(), 4096)?;
    assert!(rt; cache.tracked().is_empty());
    assert!(rt; cache.evicted().is_empty());
    cache.set_host(CountingHost::new());
    assert!(rt; cache.tracked().is_empty());
    Ok(())
}
