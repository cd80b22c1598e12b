#![tactic(auto)]

// Laws only: `show` and `pack` are each other's inverse, of tables and of the lines of a log, every line of an accepted table is shown, and how long a
// readable text can be.
