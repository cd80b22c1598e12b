#![tactic(auto)]

// Laws only: what the lines of an accepted table text have in common with the same lines in another order.
