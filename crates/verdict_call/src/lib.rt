#![tactic(auto)]

// The single-path verdict and the tree verdict on a table text and a request, with every refusal.
ghost use Rattle.std.specs.Prelude.{◌≡◌};
ghost use Rattle.table_load.specs.Loaded.{bytes};
ghost use Rattle.verdict_judge.specs.Rules.{Safe};
ghost use Rattle.verdict_request.specs.Calls.{path_verdict, tree_verdict};
ghost use Rattle.verdict_request.specs.Answers.{path_answer_of, tree_answer_of};
ghost use Rattle.verdict_call.specs.Holding.{RulesOf};

use refusal::Fault;
use table_load::Table;
use verdict_concern::Asker;
use verdict_judge::rules::Rules;
use verdict_request::{PathAnswer, TreeAnswer};

pub mod loaded;

// The rules of a loaded table.
pub fn rules_of(table: &Table) -> Rules
    requires { Safe (bytes table.now) table.now.starts table.now.holders table.now.counts.rules }
    ensures { RulesOf table.now result }
{
    Rules {
        bytes: table.bytes(),
        starts: &table.starts,
        holders: &table.holders,
        count: table.counts.rules,
    }
}

// The action for one path, and the deciding rule.
pub fn path_verdict(
    table: &[u8],
    user: &[u8],
    mode: u32,
    origin: &[u8],
    path: &[u8],
) -> Result<PathAnswer, Fault>
    ensures { path_answer_of result ≡ path_verdict table.now user.now mode origin.now path.now }
{
    let mut loaded = Table::new();
    table_load::load(table, &mut loaded)?;
    let set = table_membership::memberships(
        loaded.bytes(),
        &loaded.users,
        &loaded.owners,
        loaded.counts.members,
        user,
    );
    let asker = Asker {
        user,
        set,
        mode,
        origin,
    };
    crate::loaded::path_answer(rules_of(&loaded), asker, path)
}

// ALL, NONE or MIXED for the paths at or beneath, and the rule that MIXED names. It loads and asks as `path_verdict` does; one function of both would
// take the call that is made as a closure, and its contract the answer of either as a parameter.
pub fn tree_verdict(
    table: &[u8],
    user: &[u8],
    mode: u32,
    origin: &[u8],
    path: &[u8],
) -> Result<TreeAnswer, Fault>
    ensures { tree_answer_of result ≡ tree_verdict table.now user.now mode origin.now path.now }
{
    let mut loaded = Table::new();
    table_load::load(table, &mut loaded)?;
    let set = table_membership::memberships(
        loaded.bytes(),
        &loaded.users,
        &loaded.owners,
        loaded.counts.members,
        user,
    );
    let asker = Asker {
        user,
        set,
        mode,
        origin,
    };
    crate::loaded::tree_answer(rules_of(&loaded), asker, path)
}
