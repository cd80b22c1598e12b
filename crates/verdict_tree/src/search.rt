// What is kept of the rules while the opposing rule is sought: `Prepared`. That it is so is no field, since it has witnesses (a seed, numbers),
// which a ghost field may not have.
use verdict_compare::place::Elements;
use verdict_filter::Filter;
use verdict_judge::rules::PlacedRules;

#[derive(Clone, Copy)]
pub struct Search<'t, 'a> {
    pub rules: PlacedRules<'t>,
    // Of each rule its weight and its number, as one number.
    pub weights: &'a [usize],
    // After each that fits the next in weight; the heaviest of all is `first`.
    pub next: &'a [usize],
    pub first: usize,
    pub filters: &'a [Filter],
    pub asked: Elements<'a>,
}
