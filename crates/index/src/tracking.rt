// Which keys are tracked, and what a use of one changes.
ghost use Rattle.std.specs.Prelude.{◌≡◌, ◌+◌, ◌^◌, ◌<◌, ◌≤◌, true, false, [], length, IfOk, MatchBool, MatchOption, MatchResult};
ghost use Rattle.cache.specs.Keys.{key_of};
ghost use Rattle.cache.specs.Tracking.{Entry, sizes};
ghost use Rattle.index.specs.Table.{entry_of, entries_of, tracks, IsTable, TrackedAt, Touched, Used, Removed};

use crate::full::IndexFull;
use crate::index::Index;
use crate::record::KeyRecord;
use crate::table::KeyTable;
use cache::CacheKey;
use std::alloc::{AllocError, Global};

impl Index {
    // Nothing tracked, with room for 256 keys.
    pub fn new(heap: Global) -> Result<Index, AllocError>
        ensures { IfOk result (λ x. x ≡ []) }
    {
        Ok(Index {
            table: KeyTable {
                records: Vec::with_capacity(heap, 256)?,
            },
            total: 0,
        })
    }

    // The tracked keys in their order.
    pub fn records(&self) -> &[KeyRecord]
        ensures value { entries_of result.now ≡ self.now }
        ensures few { length result.now ≤ 256 }
        ensures table { IsTable self.now }
    {
        self.table.records.as_slice()
    }

    // The sum of the tracked sizes.
    pub fn total(&self) -> u128
        ensures value { result ≡ sizes self.now }
        ensures table { IsTable self.now }
    {
        self.total
    }

    // Where a key is tracked.
    fn find(&self, key: &CacheKey) -> Option<usize>
        ensures found { MatchOption result (tracks (key_of key.now) self.now ≡ false) (λ i. ((e : Entry) × TrackedAt (key_of key.now) self.now i e)) }
        ensures table { IsTable self.now }
    {
        self.table.records.iter().position(|r| r.key == *key)
    }

    pub fn is_tracked(&self, key: &CacheKey) -> bool
        ensures answer { result ≡ tracks (key_of key.now) self.now }
        ensures table { IsTable self.now }
    {
        self.find(key).is_some()
    }

    // Sets the access time of a tracked key, and of no other; answers whether it is tracked.
    pub fn set_access_time(&mut self, key: &CacheKey, time: i64) -> bool
        ensures answer { MatchBool result (Touched (key_of key.now) time self.old self.new) ((tracks (key_of key.now) self.old ≡ false) × (self.new ≡ self.old)) }
        ensures table { IsTable self.old }
        ensures after { IsTable self.new }
    {
        let Some(i) = self.find(key) else {
            return false;
        };
        self.table.at(i).touch(time);
        true
    }

    // Notes a use of a key: a known key has its access time set and keeps its size, a new one is appended.
    // Refuses, and changes nothing, where a new key finds 256 tracked.
    pub fn track_entry_accessed(
        &mut self,
        key: CacheKey,
        size: usize,
        time: i64,
    ) -> Result<(), IndexFull>
        ensures answer { MatchResult result (λ _. Used (key_of key) size time self.old self.new) (λ _. (tracks (key_of key) self.old ≡ false) × (length self.old ≡ 256) × (self.new ≡ self.old)) }
        ensures table { IsTable self.old }
        ensures after { IsTable self.new }
    {
        if self.set_access_time(&key, time) {
            return Ok(());
        }
        if self.table.is_full() {
            return Err(IndexFull);
        }
        self.table
            .records
            .push_reserved(KeyRecord { key, size, time });
        self.total += size as u128;
        Ok(())
    }

    // Removes a key, and puts the last one into the gap.
    pub fn remove_entry(&mut self, key: &CacheKey) -> Option<KeyRecord>
        ensures answer { MatchOption result ((tracks (key_of key.now) self.old ≡ false) × (self.new ≡ self.old)) (λ gone. (key_of gone.key ≡ key_of key.now) × Removed (entry_of gone) self.old self.new) }
        ensures table { IsTable self.old }
        ensures after { IsTable self.new }
    {
        let i = self.find(key)?;
        let gone = self.table.take_out(i);
        self.total -= gone.size as u128;
        Some(gone)
    }
}
