// How many lines came to what.
ghost use Rattle.std.specs.Prelude.{◌≡◌};
ghost use Rattle.plan.specs.Tallied.{Counts, Counted};

use lines::Counter;
use planning::Plan;
use std::fmt;

// What a line said.
#[derive(Clone, Copy, Debug, PartialEq, Eq)]
pub enum Said {
    // blank, or a comment
    Nothing,
    NoRequest,
    Request(Plan),
}

// How many requests there were, how many of them are refused, and how many lines are no request.
#[derive(Clone, Copy, Debug, PartialEq, Eq)]
pub struct Tally {
    requests: Counter,
    refused_held: Counter,
    refused_not_held: Counter,
    no_requests: Counter,
}

impl Tally {
    pub fn new() -> Tally
        ensures { Counts result 0 0 0 0 }
    {
        Tally {
            requests: Counter::new(),
            refused_held: Counter::new(),
            refused_not_held: Counter::new(),
            no_requests: Counter::new(),
        }
    }

    // Counts one more line.
    pub fn count(&mut self, said: Said)
        ensures { Counted self.old said self.new }
    {
        match said {
            Said::Nothing => {}
            Said::NoRequest => self.no_requests.add_one(),
            Said::Request(plan) => {
                self.requests.add_one();
                if plan.refused_held() {
                    self.refused_held.add_one();
                }
                if plan.refused_not_held() {
                    self.refused_not_held.add_one();
                }
            }
        }
    }
}

impl fmt::Display for Tally {
    fn fmt<W: fmt::Write>(&self, f: &mut fmt::Formatter<W>) -> fmt::Result {
        write!(
            f,
            "{} requests, {} refused with a head held and {} with none, {} lines that are no request",
            self.requests, self.refused_held, self.refused_not_held, self.no_requests
        )
    }
}
