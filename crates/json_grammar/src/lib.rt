#![tactic(auto)]

// RFC 8259: the grammar, a tree of JSON values and a parser, proved to agree. Meaning alone: the programs are in the crate json.
