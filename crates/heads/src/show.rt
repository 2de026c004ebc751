// The lines that are printed for a head.
use head_text::Written;
use records::Head;
use std::{fmt, io};
use stored_head::{load, save};

// Bytes in decimal, with a space between them.
#[derive(Clone, Copy)]
struct Row<'a>(&'a [u8]);

impl fmt::Display for Row<'_> {
    fn fmt<W: fmt::Write>(&self, f: &mut fmt::Formatter<W>) -> fmt::Result {
        for (i, b) in self.0.iter().enumerate() {
            let between = if i == 0 { "" } else { " " };
            write!(f, "{between}{b}")?;
        }
        Ok(())
    }
}

// The stored bytes of a head, 16 a line, and the head that they load as.
pub fn stored(rt: &HostRuntime, head: &Head) -> io::Result<()> {
    // `save` writes into a slice, as a cache does
    let mut room = [0; 927];
    match save(head, &mut room) {
        Err(short) => println!(rt; "    not stored: {short}\n"),
        Ok(len) => {
            let bytes = &room[0..len];
            println!(rt; "    stored     {len} bytes")?;
            for part in bytes.chunks(16) {
                let row = Row(part);
                println!(rt; "        {row}")?;
            }
            loaded(rt, bytes)?;
            Ok(())
        }
    }
}

// The head that bytes load as; answers whether there is one.
pub fn loaded(rt: &HostRuntime, bytes: &[u8]) -> io::Result<bool> {
    match load(bytes) {
        None => {
            println!(rt; "    no head\n")?;
            Ok(false)
        }
        Some(head) => {
            let text = Written(&head);
            println!(rt; "    loaded     {text}\n")?;
            Ok(true)
        }
    }
}
