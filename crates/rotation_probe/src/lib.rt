#![tactic(auto)]

// Probes: a request judged on what is in force.
pub mod force;
pub mod rpcs;

ghost use Rattle.std.specs.Prelude.{◌≡◌};
ghost use Rattle.std.proofs.Math.Option.{none};
ghost use Rattle.table.specs.Checked.{Accepted};
ghost use Rattle.verdict.specs.Verdict.{NONE};
ghost use Rattle.verdict_request.specs.Calls.{request_refusal, path_answer, tree_answer};
ghost use Rattle.verdict_request.specs.Answers.{path_answer_of, tree_answer_of};
ghost use Rattle.rotation_probe.specs.Probe.{probe_path, probe_tree};

use refusal::Fault;
use rotation::{Kind, Record};
use verdict_concern::Asker;
use verdict_judge::rules::Rules;
use verdict_request::{PathAnswer, TreeAnswer};

// Kind 2 without a text: as a table without rules, which denies all. The same rules and asker stand in `factory_tree` too: a function that handed them out
// would have to say in its contract all that is written here.
fn factory_path(user: &[u8], mode: u32, origin: &[u8], path: &[u8]) -> Result<PathAnswer, Fault>
    ensures { path_answer_of result ≡ path_answer Accepted (request_refusal user.now mode origin.now path.now) none }
{
    let rules = Rules {
        bytes: &[0],
        starts: &[0],
        holders: &[0],
        count: 0,
    };
    let asker = Asker {
        user,
        set: 0,
        mode,
        origin,
    };
    verdict_call::loaded::path_answer(rules, asker, path)
}

// Kind 2 without a text: as a table without rules, which denies all.
fn factory_tree(user: &[u8], mode: u32, origin: &[u8], path: &[u8]) -> Result<TreeAnswer, Fault>
    ensures { tree_answer_of result ≡ tree_answer Accepted (request_refusal user.now mode origin.now path.now) NONE }
{
    let rules = Rules {
        bytes: &[0],
        starts: &[0],
        holders: &[0],
        count: 0,
    };
    let asker = Asker {
        user,
        set: 0,
        mode,
        origin,
    };
    verdict_call::loaded::tree_answer(rules, asker, path)
}

// The action for one path. What this and `probe_tree` share is `find_source`; the rest is the calls that differ.
pub fn probe_path(
    r: Record,
    store: &[u8],
    user: &[u8],
    mode: u32,
    origin: &[u8],
    path: &[u8],
) -> Result<PathAnswer, Fault>
    ensures { path_answer_of result ≡ probe_path r store.now user.now mode origin.now path.now }
{
    match crate::force::find_source(r, store.len(), Kind::Table) {
        Err(refusal) => Err(Fault::at(refusal, 0)),
        Ok(None) => factory_path(user, mode, origin, path),
        Ok(Some(part)) => verdict_call::path_verdict(
            &store[part.start..part.end],
            user,
            mode,
            origin,
            path,
        ),
    }
}

// ALL, NONE or MIXED for the paths at or beneath.
pub fn probe_tree(
    r: Record,
    store: &[u8],
    user: &[u8],
    mode: u32,
    origin: &[u8],
    path: &[u8],
) -> Result<TreeAnswer, Fault>
    ensures { tree_answer_of result ≡ probe_tree r store.now user.now mode origin.now path.now }
{
    match crate::force::find_source(r, store.len(), Kind::Table) {
        Err(refusal) => Err(Fault::at(refusal, 0)),
        Ok(None) => factory_tree(user, mode, origin, path),
        Ok(Some(part)) => verdict_call::tree_verdict(
            &store[part.start..part.end],
            user,
            mode,
            origin,
            path,
        ),
    }
}
