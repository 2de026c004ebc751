// The picks, one after the other.
ghost use Rattle.std.specs.Prelude.{◌≡◌, ◌<◌, ◌≤◌, false, length, slice_index_or};
ghost use Rattle.cache.specs.Tracking.{Entry};
ghost use Rattle.index.specs.Table.{entries_of, IsTable};
ghost use Rattle.picking.specs.Left.{table_of, left_in};
ghost use Rattle.picking.specs.Picks.{Pick, Picks};

use crate::candidates::Candidates;
use crate::choice::used_earlier;
use crate::targets::Targets;
use hosts::Host;
use index::Index;

impl<'a> Candidates<'a> {
    // The place of the next picked key.
    fn pick_one<H: Host>(&self, host: &mut H) -> usize
        requires { 2 ≤ length (left_in self.now) }
        ensures pick { (e : Entry) → e ≡ slice_index_or (table_of self.now) result e → Pick H.draws (table_of self.now) self.now.picked host.old result e host.new }
        ensures within { result < length self.now.keys.now }
        ensures fresh { slice_index_or self.now.picked result false ≡ false }
    {
        let first = self.pick_random_available_index(host, None);
        let second = self.pick_random_available_index(host, Some(first));
        used_earlier(first, self.keys[first].time, second, self.keys[second].time)
    }
}

// Picks keys until no more than the target remains, or fewer than two.
pub fn pick_evict_targets<H: Host>(host: &mut H, index: &Index, target: u64, targets: &mut Targets)
    ensures picks { Picks H.draws index.now target host.old (entries_of targets.new) host.new }
    ensures table { IsTable index.now }
{
    let mut candidates = Candidates::of(index);
    targets.clear();
    while candidates.goes_on(target) {
        let place = candidates.pick_one(host);
        targets.push(candidates.pick(place));
    }
}
