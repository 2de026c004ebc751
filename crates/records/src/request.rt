// What a reader asks for.
ghost use Rattle.std.specs.Prelude.{◌≡◌, None};

use crate::path::Path;
use crate::tag::ObjectStoreCallTag;
use ranges::GetRange;

// The bytes of an object, by its path, and what the call says of itself.
#[derive(Clone, Copy, Debug, PartialEq, Eq)]
pub struct Request {
    pub path: Path,
    pub tag: Option<ObjectStoreCallTag>,
    pub range: GetRange,
}

impl Request {
    // A request without a tag.
    pub fn untagged(path: Path, range: GetRange) -> Request
        ensures { (result.path ≡ path) × (result.tag ≡ None) × (result.range ≡ range) }
    {
        Request {
            path,
            tag: None,
            range,
        }
    }
}
