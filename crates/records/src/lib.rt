// What stores, caches and layers speak of: paths, heads, call tags and requests, each within its limits
// from its making on.
//
// Uses `ranges`. Every crate above may use it.
// Promises: a maker gives the value that it was asked for, or refuses it (2 a path, 3 what a head holds)
// exactly where it is past its limits. Equal byte strings, paths and labels are equal values.
#![tactic(auto)]

mod attribute;
mod attributes;
mod bytes64;
mod head;
mod label;
mod messages;
mod names;
mod path;
mod refused;
mod request;
mod tag;

pub use attribute::{Attribute, AttributeEntry, Key};
pub use attributes::Attributes;
pub use bytes64::Bytes64;
pub use head::Head;
pub use label::{Label, LabelKind};
pub use path::Path;
pub use refused::{BufferTooShort, InvalidHead, InvalidPath};
pub use request::Request;
pub use tag::{ObjectStoreCallTag, SstType, TableStoreKind};
