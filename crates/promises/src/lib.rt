#![tactic(auto)]

// No code: the promises are theorems about the definitions that the contracts of the exported functions cite.
