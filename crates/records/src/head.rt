// What is known of an object without its bytes.
ghost use Rattle.std.specs.Prelude.{◌≡◌, ◌^◌, ◌<◌, ◌≤◌, MatchResult};
ghost use Rattle.records.specs.Limits.{SizeWithin, TimeWithin, HeadRefused, of_head};

use crate::attributes::Attributes;
use crate::label::Label;
use crate::refused::InvalidHead;

// The size of the object, when it was last changed, and what its store says of it.
#[derive(Clone, Copy, Debug)]
pub struct Head {
    size: u64,
    // milliseconds since 1970
    time: u64,
    pub e_tag: Label,
    pub version: Label,
    pub attributes: Attributes,
    ghost sized: { SizeWithin size },
    ghost timed: { TimeWithin time },
}

impl Head {
    // A size above 2^40 is refusal 3, and so is a time of 2^42 or later.
    pub fn new(
        size: u64,
        time: u64,
        e_tag: Label,
        version: Label,
        attributes: Attributes,
    ) -> Result<Head, InvalidHead>
        ensures { MatchResult result (λ h. SizeWithin size × TimeWithin time × (h.size ≡ size) × (h.time ≡ time) × (h.e_tag ≡ e_tag) × (h.version ≡ version) × (h.attributes ≡ attributes)) (λ e. HeadRefused size time (of_head e)) }
    {
        if size > 1 << 40 {
            return Err(InvalidHead::Size(size));
        }
        if time >= 1 << 42 {
            return Err(InvalidHead::Time(time));
        }
        Ok(Head {
            size,
            time,
            e_tag,
            version,
            attributes,
        })
    }

    pub fn size(&self) -> u64
        ensures { result ≡ self.now.size }
    {
        self.size
    }

    pub fn time(&self) -> u64
        ensures { result ≡ self.now.time }
    {
        self.time
    }

    // The same head with other attributes.
    pub fn with_attributes(&self, attributes: Attributes) -> Head
        ensures { (result.size ≡ self.now.size) × (result.time ≡ self.now.time) × (result.e_tag ≡ self.now.e_tag) × (result.version ≡ self.now.version) × (result.attributes ≡ attributes) }
    {
        // field by field, since `..*self` is not to be had with a ghost field
        Head {
            size: self.size,
            time: self.time,
            e_tag: self.e_tag,
            version: self.version,
            attributes,
        }
    }
}
