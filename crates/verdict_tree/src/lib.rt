#![tactic(auto)]

// The rule that MIXED names, over the decoded bytes of a checked table. No joined path is made: a rule is tested against the pair of another
// rule's path and the asked one. Rules are tested from the heaviest on, and a Bloom filter saves most of the tests.
pub mod filter;
pub mod joined;
pub mod order;
pub mod search;
pub mod weigh;
pub mod witness;
