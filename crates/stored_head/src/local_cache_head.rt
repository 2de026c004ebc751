// A head as it is stored.
use records::Head;

// What it tells of an attribute is its name and its value, not its kind, and a name may come twice.
#[derive(Clone, Copy, Debug)]
pub struct LocalCacheHead {
    pub(crate) names: Head,
}
