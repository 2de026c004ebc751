// Draws of an index that is not picked yet.
ghost use Rattle.std.specs.Prelude.{◌≡◌, ◌<◌, length};
ghost use Rattle.picking.specs.Picks.{available, SomeAvailable, Drawn, NextRound};

use crate::candidates::Candidates;
use hosts::Host;

// How often the host is asked before the round.
const MOST_DRAWS: usize = 64;

impl<'a> Candidates<'a> {
    // Whether an index may be drawn: not picked yet, and another than this, if there is one.
    fn is_available(&self, but: Option<usize>, i: usize) -> bool
        requires { i < length self.now.keys.now }
        ensures { result ≡ available self.now.picked but i }
    {
        !self.picked[i] && but != Some(i)
    }

    // The next available index behind the last, going round.
    fn next_round(&self, but: Option<usize>, last: usize) -> usize
        requires last_within { last < length self.now.keys.now }
        requires some { SomeAvailable (length self.now.keys.now) self.now.picked but }
        ensures next { NextRound (length self.now.keys.now) self.now.picked but last result }
        ensures within { result < length self.now.keys.now }
    {
        (last + 1..self.keys.len())
            .chain(0..last + 1)
            .find(|i| self.is_available(but, *i))
            .unwrap()
    }

    // By one of at most 64 draws, else by the round: so it ends with every host.
    pub(crate) fn pick_random_available_index<H: Host>(
        &self,
        host: &mut H,
        but: Option<usize>,
    ) -> usize
        requires { SomeAvailable (length self.now.keys.now) self.now.picked but }
        ensures drawn { Drawn H.draws (length self.now.keys.now) self.now.picked but host.old result host.new }
        ensures within { result < length self.now.keys.now }
    {
        let n = self.keys.len();
        let mut last = 0;
        for _tried in 0..MOST_DRAWS {
            last = host.draw(n);
            if self.is_available(but, last) {
                return last;
            }
        }
        self.next_round(but, last)
    }
}
