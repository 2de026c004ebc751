// A head as its line of text.
use records::{Attribute, AttributeEntry, Head, Key, Label};
use std::fmt;

// The words of a head: those for size and time, those for what is present, and those for its attributes.
#[derive(Clone, Copy, Debug)]
pub struct Written<'a>(pub &'a Head);

// Whether a byte stands for itself.
fn is_plain(b: u8) -> bool {
    b > b' ' && b < 127 && b != b'%' && b != b'='
}

fn write_text<W: fmt::Write>(f: &mut fmt::Formatter<W>, bytes: &[u8]) -> fmt::Result {
    for &b in bytes {
        if is_plain(b) {
            f.write_char(char::from(b))?;
        } else {
            write!(f, "%{b:02X}")?;
        }
    }
    Ok(())
}

fn write_label<W: fmt::Write>(f: &mut fmt::Formatter<W>, name: &str, label: &Label) -> fmt::Result {
    match label.get() {
        None => Ok(()),
        Some(bytes) => {
            write!(f, " {name}=")?;
            write_text(f, bytes)
        }
    }
}

// Whether a key alone would be read as something else than metadata.
fn wants_mark(key: Key) -> bool {
    match key.as_slice() {
        b"size" | b"time" | b"etag" | b"version" => true,
        name => name.starts_with(b"metadata:")
            || !matches!(Attribute::named(key), Attribute::Metadata(_)),
    }
}

fn write_entry<W: fmt::Write>(f: &mut fmt::Formatter<W>, entry: &AttributeEntry) -> fmt::Result {
    write!(f, " ")?;
    if let Attribute::Metadata(key) = entry.attribute {
        if wants_mark(key) {
            write!(f, "metadata:")?;
        }
    }
    write_text(f, entry.attribute.name())?;
    write!(f, "=")?;
    write_text(f, entry.value.as_slice())
}

impl fmt::Display for Written<'_> {
    fn fmt<W: fmt::Write>(&self, f: &mut fmt::Formatter<W>) -> fmt::Result {
        let head = self.0;
        let size = head.size();
        let time = head.time();
        write!(f, "size={size} time={time}")?;
        write_label(f, "etag", &head.e_tag)?;
        write_label(f, "version", &head.version)?;
        for entry in head.attributes.as_slice() {
            write_entry(f, entry)?;
        }
        Ok(())
    }
}
