// How many damaged forms came to what.
ghost use Rattle.std.specs.Prelude.{◌≡◌};
ghost use Rattle.head_damage.specs.Counted.{Counts, Counted};

use crate::tries::Came;
use lines::Counter;
use std::fmt;

#[derive(Clone, Copy, Debug, PartialEq, Eq)]
pub struct Count {
    forms: Counter,
    loads: Counter,
    others: Counter,
    no_heads: Counter,
    astray: Counter,
}

impl Count {
    pub fn new() -> Count
        ensures { Counts result 0 0 0 0 0 }
    {
        Count {
            forms: Counter::new(),
            loads: Counter::new(),
            others: Counter::new(),
            no_heads: Counter::new(),
            astray: Counter::new(),
        }
    }

    // One more form.
    pub fn add(&mut self, came: Came)
        ensures { Counted self.old came self.new }
    {
        self.forms.add_one();
        match came {
            Came::NoHead => self.no_heads.add_one(),
            Came::Same => self.loads.add_one(),
            Came::Other => {
                self.loads.add_one();
                self.others.add_one();
            }
            Came::Astray => {
                self.loads.add_one();
                self.astray.add_one();
            }
        }
    }

    // How many heads are saved as bytes that do not load as themselves.
    pub fn astray(&self) -> u64
        ensures { result ≡ self.now.astray }
    {
        self.astray.get()
    }
}

impl fmt::Display for Count {
    fn fmt<W: fmt::Write>(&self, f: &mut fmt::Formatter<W>) -> fmt::Result {
        write!(
            f,
            "{} forms: {} load, {} of these are saved as other bytes, {} are no head",
            self.forms, self.loads, self.others, self.no_heads
        )
    }
}
