// How many lines came to what.
ghost use Rattle.heads.specs.Tallied.{Counts, Counted};

use lines::Counter;
use std::fmt;

// What a line said.
#[derive(Clone, Copy, Debug, PartialEq, Eq)]
pub enum Said {
    // blank, or a comment
    Nothing,
    // a head as text
    Head,
    // stored bytes that load
    Stored,
    // stored bytes that are no head
    NoHead,
    // neither a head as text nor bytes
    Neither,
}

#[derive(Clone, Copy, Debug, PartialEq, Eq)]
pub struct Tally {
    heads: Counter,
    stored: Counter,
    no_heads: Counter,
    neither: Counter,
}

impl Tally {
    pub fn new() -> Tally
        ensures { Counts result 0 0 0 0 }
    {
        Tally {
            heads: Counter::new(),
            stored: Counter::new(),
            no_heads: Counter::new(),
            neither: Counter::new(),
        }
    }

    // Counts one more line.
    pub fn count(&mut self, said: Said)
        ensures { Counted self.old said self.new }
    {
        match said {
            Said::Nothing => {}
            Said::Head => self.heads.add_one(),
            Said::Stored => self.stored.add_one(),
            Said::NoHead => self.no_heads.add_one(),
            Said::Neither => self.neither.add_one(),
        }
    }
}

impl fmt::Display for Tally {
    fn fmt<W: fmt::Write>(&self, f: &mut fmt::Formatter<W>) -> fmt::Result {
        write!(
            f,
            "{} heads saved, {} stored heads loaded, {} stored forms that are no head, {} lines that are neither",
            self.heads, self.stored, self.no_heads, self.neither
        )
    }
}
