// From a head as it is stored to a head.
ghost use Rattle.std.specs.Prelude.{◌≡◌, ◌≤◌, length, take};
ghost use Rattle.records.specs.Bytes.{entries_of};
ghost use Rattle.stored_head.specs.Heads.{data_of, pairs, name_in};
ghost use Rattle.stored_head.specs.Loads.{Loaded, LoadAnswer, Renamed, Refilled};

use crate::local_cache_head::LocalCacheHead;
use records::{Attribute, AttributeEntry, Attributes, Head, Key};

// Whether one of the attributes has this name.
fn has_name(entries: &[AttributeEntry], name: &[u8]) -> bool
    ensures { result ≡ name_in name.now (pairs entries.now) }
{
    entries.iter().any(|entry| name == entry.attribute.name())
}

// The attribute that a name stands for, with the same value.
fn named(entry: &AttributeEntry) -> AttributeEntry
    ensures { Renamed entry.now result }
{
    let key = Key::new(entry.attribute.name()).unwrap();
    AttributeEntry {
        attribute: Attribute::named(key),
        value: entry.value,
    }
}

// The attributes by their names, of equal names the later.
fn merged(entries: &[AttributeEntry]) -> Attributes
    requires { length entries.now ≤ 8 }
    ensures { Refilled entries.now (entries_of result) }
{
    let mut all = Attributes::new();
    let mut left = entries;
    while let [entry, later @ ..] = left {
        if !has_name(later, entry.attribute.name()) {
            all.push(named(entry)).unwrap();
        }
        left = later;
    }
    all
}

// A head as it would be stored.
impl From<&Head> for LocalCacheHead {
    ghost from_gives = { λ head r. data_of r.names ≡ data_of head.now };

    fn from(head: &Head) -> LocalCacheHead {
        LocalCacheHead { names: *head }
    }
}

impl LocalCacheHead {
    // The head: each attribute is what its name says, and of equal names the later stays.
    pub fn head(&self) -> Head
        ensures { Loaded (data_of self.now.names) result }
    {
        let attributes = merged(self.names.attributes.as_slice());
        self.names.with_attributes(attributes)
    }
}

// The head that is stored as these bytes, as it loads back; nothing where no head within its limits is.
pub fn load(bytes: &[u8]) -> Option<Head>
    ensures { LoadAnswer bytes.now result }
{
    let stored = LocalCacheHead::read(bytes)?;
    Some(stored.head())
}
