// The names by which attributes are stored.
ghost use Rattle.std.specs.Prelude.{◌≡◌, length};
ghost use Rattle.records.specs.Limits.{KeyLong};
ghost use Rattle.records.specs.Names.{name_of, Named};

use crate::attribute::{Attribute, Key};

impl Attribute {
    // The name of a known attribute, the key of metadata.
    #[tactic(auto, unfolding(crate::specs::Names::name_of))]
    pub fn name(&self) -> &[u8]
        ensures value { result.now ≡ name_of self.now }
        ensures long { KeyLong (length result.now) }
    {
        match self {
            Attribute::CacheControl => b"Cache-Control",
            Attribute::ContentDisposition => b"Content-Disposition",
            Attribute::ContentEncoding => b"Content-Encoding",
            Attribute::ContentLanguage => b"Content-Language",
            Attribute::ContentType => b"Content-Type",
            Attribute::Metadata(key) => key.as_slice(),
        }
    }

    // The attribute with this name: a known one by its name, metadata by any other. By `==` and not by a `match` on
    // byte strings, which the check takes apart byte by byte.
    pub fn named(key: Key) -> Attribute
        ensures { Named key result }
    {
        let name = key.as_slice();
        if name == Attribute::CacheControl.name() {
            return Attribute::CacheControl;
        }
        if name == Attribute::ContentDisposition.name() {
            return Attribute::ContentDisposition;
        }
        if name == Attribute::ContentEncoding.name() {
            return Attribute::ContentEncoding;
        }
        if name == Attribute::ContentLanguage.name() {
            return Attribute::ContentLanguage;
        }
        if name == Attribute::ContentType.name() {
            return Attribute::ContentType;
        }
        Attribute::Metadata(key)
    }
}
