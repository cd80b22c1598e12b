// The rules of a bucket, tried one after another.
ghost use Rattle.std.specs.Prelude.{◌≡◌, ◌+◌, ◌-◌, ◌*◌, ◌≤◌, ◌<◌};
ghost use Rattle.limits.specs.Limits.{max_rules};
ghost use Rattle.verdict.specs.Rank.{top_rank, rank};
ghost use Rattle.verdict_judge.specs.Place.{nth};
ghost use Rattle.verdict_judge.specs.Best.{kept};
ghost use Rattle.rule_index.specs.Index.{buckets};
ghost use Rattle.rule_index.specs.Found.{weight_of};
ghost use Rattle.rule_index.specs.Lookup.{Indexed, Keeps, Tries, Scans};

use crate::lookup::Lookup;
use table::RuleNumber;
use verdict_judge::rules::{Best, Numbered};

// The weight of the best so far: its rank + 1, and 0 where there is none.
fn weight_of(best: Option<Best>) -> usize
    requires { weight_of best ≤ top_rank }
    ensures { result ≡ weight_of best.entry }
{
    match best {
        Some(b) => b.weight + 1,
        None => 0,
    }
}

// The largest key of the bucket whose rule can be better than the best so far.
fn last_key(bucket: usize, weight: usize) -> u64
    requires { (bucket < buckets) × (weight ≤ top_rank) }
    ensures { result ≡ (bucket * top_rank + (top_rank - weight)) * max_rules + (max_rules - 1) }
{
    ((bucket * crate::keys::RANKS + (crate::keys::RANKS - weight)) * limits::MAX_RULES
        + (limits::MAX_RULES - 1)) as u64
}

impl<'t, 'a> Lookup<'t, 'a> {
    // The best after rule i. Whether it would win is tried first: of equal rules that match mostly the first has the smallest id.
    fn try_rule(&self, best: Option<Best<'t>>, i: usize, weight: usize) -> Option<Best<'t>>
        requires { (i < self.now.rules.count) × (weight ≡ rank (nth self.now.rules i)) × Keeps self.now (kept best) }
        ensures { Tries self.now i (kept best.entry) (kept result) }
    {
        let number = RuleNumber(i as u16);
        let own = self.rules.rule(number);
        if !verdict_judge::best::wins(best, own, weight) {
            return best;
        }
        if !self.asker.is_concerned(self.rules, number) || !own.path().covers(self.asked) {
            return best;
        }
        Some(Best {
            found: Numbered { number, rule: own },
            weight,
        })
    }

    // The best after the rules of the bucket.
    pub fn scan(&self, best: Option<Best<'t>>, bucket: usize) -> Option<Best<'t>>
        requires { Indexed self.now × (bucket < buckets) × Keeps self.now (kept best) }
        ensures { Scans self.now bucket (kept best.entry) (kept result) }
    {
        let from = self.first[bucket] as usize;
        if from == 0 {
            return best;
        }
        let mut so_far = best;
        for j in from - 1..self.rules.count {
            let key = self.keys[j];
            if last_key(bucket, weight_of(so_far)) < key {
                return so_far;
            }
            let i = key as usize % limits::MAX_RULES;
            let weight = crate::keys::RANKS
                - 1
                - key as usize / limits::MAX_RULES % crate::keys::RANKS;
            so_far = self.try_rule(so_far, i, weight);
        }
        so_far
    }
}
