// The rule that decides a joined path.
ghost use Rattle.std.specs.Prelude.{◌≡◌, ◌<◌, get_or};
ghost use Rattle.verdict.specs.Pair.{covers_both};
ghost use Rattle.verdict_compare.specs.Place.{elements};
ghost use Rattle.verdict_judge.specs.Placed.{nth};
ghost use Rattle.verdict_tree.specs.Tree.{Fits, Heaviest};
ghost use Rattle.verdict_tree.specs.Given.{Ready};

use crate::search::Search;
use table::RuleNumber;
use verdict_compare::place::Elements;

impl<'t, 'a> Search<'t, 'a> {
    // Whether the path of rule j covers the joined path of that of rule i, which is `own`, and the asked one. Both rules fit.
    fn covers_joined(&self, j: RuleNumber, i: RuleNumber, own: Elements) -> bool
        requires prepared { Ready self.now }
        requires inside { (j.0 < self.now.rules.count) × (i.0 < self.now.rules.count) }
        requires fit { Fits (get_or self.now.weights.now j.0 0) × Fits (get_or self.now.weights.now i.0 0) }
        requires path { elements own ≡ (nth self.now.rules i.0).path }
        ensures { result ≡ covers_both (nth self.now.rules j.0).path (nth self.now.rules i.0).path (elements self.now.asked) }
    {
        let other = j.0 as usize;
        let number = i.0 as usize;
        crate::filter::is_within(self.filters[other], self.filters[number])
            && self.rules.rule(j).path().covers_both(own, self.asked)
    }

    // The heaviest rule that covers the joined path of rule i, which fits, and the asked one. Rule i itself does, so only heavier ones are
    // tested. Those of equal weight have equal actions, whatever their ids.
    pub fn decide_joined(&self, i: RuleNumber) -> RuleNumber
        requires { Ready self.now × (i.0 < self.now.rules.count) × Fits (get_or self.now.weights.now i.0 0) }
        ensures { Heaviest self.now.rules self.now.weights.now (elements self.now.asked) i.0 result.0 }
    {
        let own = self.rules.rule(i).path();
        let number = i.0 as usize;
        let weight = self.weights[number] / limits::MAX_RULES;
        let mut x = self.first;
        while weight < x / limits::MAX_RULES {
            let j = x % limits::MAX_RULES;
            let heavier = RuleNumber(j as u16);
            if self.covers_joined(heavier, i, own) {
                return heavier;
            }
            x = self.next[j];
        }
        i
    }
}
