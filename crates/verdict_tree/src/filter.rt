// The Bloom filters of the rules that fit.
ghost use Rattle.std.specs.Prelude.{◌≡◌, false, ◌≤◌, length};
ghost use Rattle.text_hash.specs.Mix.{Small};
ghost use Rattle.verdict_compare.specs.Place.{elements};
ghost use Rattle.verdict_filter.specs.Bloom.{unite};
ghost use Rattle.verdict_tree.specs.Tree.{Filters};

use table::RuleNumber;
use text_hash::Seed;
use verdict_compare::place::Elements;
use verdict_filter::Filter;
use verdict_judge::rules::PlacedRules;

pub fn fill(s: Seed, rules: PlacedRules, weights: &[usize], asked: Elements, filters: &mut [Filter])
    requires { Small s × (rules.count ≤ length weights.now) × (rules.count ≤ length filters.old) }
    ensures filters { Filters s rules.entry weights.now (elements asked.entry) filters.new rules.entry.count }
    ensures len_unchanged { length filters.new ≡ length filters.old }
{
    for i in 0..rules.count {
        if limits::MAX_RULES <= weights[i] {
            filters[i] = verdict_filter::beyond(s, rules.rule(RuleNumber(i as u16)).path(), asked);
        }
    }
}

// Whether the first has no digit that the second lacks.
pub fn is_within(x: Filter, y: Filter) -> bool
    ensures { result ≡ false → unite x y ≡ y → ⊥ }
{
    verdict_filter::unite(x, y) == y
}
