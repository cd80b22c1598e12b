// The rules of a loaded table with their index, and who asks for which path.
use text_hash::Seed;
use verdict_compare::place::Elements;
use verdict_concern::Asker;
use verdict_judge::rules::Rules;

#[derive(Clone, Copy)]
pub struct Lookup<'t, 'a> {
    pub rules: Rules<'t>,
    // The keys in rising order, and for each bucket where its first stands, counted from 1; 0 for none.
    pub keys: &'a [u64],
    pub first: &'a [u16],
    pub seed: Seed,
    pub asker: Asker<'a>,
    // The place of the user's name.
    pub place: usize,
    pub asked: Elements<'a>,
}
