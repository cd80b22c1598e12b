// The deciding rule for a request, found by the index: the rules are tried that have one of the clues of its path.
ghost use Rattle.std.specs.Prelude.{◌≡◌, ◌<◌, length};
ghost use Rattle.verdict_compare.specs.Place.{keys, elements};
ghost use Rattle.verdict_judge.specs.Best.{kept};
ghost use Rattle.rule_index.specs.Clue.{values_of, values};
ghost use Rattle.rule_index.specs.Index.{buckets};
ghost use Rattle.rule_index.specs.Lookup.{Ready, Goes, Probes, ProbesAll, Finds};

use crate::lookup::Lookup;
use verdict_compare::place::{Elements, Keys};
use verdict_judge::rules::Best;

impl<'t, 'a> Lookup<'t, 'a> {
    // The best after the rules, about the user or a group, whose clue has the place c, unless that is marked in `seen`: many keys may have one
    // value. Where no group lists the user, no rule about a group matters.
    fn probe(&self, best: Option<Best<'t>>, c: usize, seen: &mut [bool]) -> Option<Best<'t>>
        requires { Ready self.now × (c < buckets) × Goes self.now seen.old (kept best) × (length seen.old ≡ buckets) }
        ensures probed { Probes self.now c (kept best.entry) (kept result) seen.new }
        ensures seen_len_unchanged { length seen.new ≡ length seen.old }
    {
        if seen[c] {
            return best;
        }
        seen[c] = true;
        let about = (self.place + c) % crate::keys::BUCKETS;
        let own = self.scan(best, about);
        if self.asker.set == 0 {
            return own;
        }
        self.scan(own, c)
    }

    // The best after the clues that the values of the keys are.
    fn probe_keys(
        &self,
        best: Option<Best<'t>>,
        path_keys: Keys,
        seen: &mut [bool],
    ) -> Option<Best<'t>>
        requires { Ready self.now × Goes self.now seen.old (kept best) × (length seen.old ≡ buckets) }
        ensures probed_all { ProbesAll self.now (values_of (keys path_keys.entry)) (kept best.entry) (kept result) seen.new }
        ensures seen_len_unchanged { length seen.new ≡ length seen.old }
    {
        let mut so_far = best;
        for k in path_keys {
            let c = member_index::place_at(k.bytes, table_place::str_end(k.bytes, k.at), self.seed);
            so_far = self.probe(so_far, c, seen);
        }
        so_far
    }

    // The best after those that the values of the keys of the elements are.
    fn probe_elements(
        &self,
        best: Option<Best<'t>>,
        path: Elements,
        seen: &mut [bool],
    ) -> Option<Best<'t>>
        requires { Ready self.now × Goes self.now seen.old (kept best) × (length seen.old ≡ buckets) }
        ensures probed_all { ProbesAll self.now (values (elements path.entry)) (kept best.entry) (kept result) seen.new }
        ensures seen_len_unchanged { length seen.new ≡ length seen.old }
    {
        let mut so_far = best;
        for e in path {
            so_far = self.probe_keys(so_far, e.keys(), seen);
        }
        so_far
    }

    // The deciding rule for the path.
    pub fn find(&self) -> Option<Best<'t>>
        requires { Ready self.now }
        ensures { Finds self.now (kept result) }
    {
        let mut seen = [false; crate::keys::BUCKETS];
        let root = text_hash::place(self.seed, crate::keys::BUCKETS, &self.asked.bytes[0..0]);
        let b = self.probe(None, root, &mut seen);
        if self.asked.count == 0 {
            return b;
        }
        let name = member_index::place_at(self.asked.bytes, self.asked.at, self.seed);
        let c = self.probe(b, name, &mut seen);
        self.probe_elements(c, self.asked, &mut seen)
    }
}
