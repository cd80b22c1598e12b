// The C boundary of the probes, which judge a request on what is in force: a record's five numbers, the store, and a request, one by one, as the calls of
// the C interface have them. Within, they are a `Record` and a `Request`.
ghost use Rattle.std.specs.Prelude.{◌≡◌};
ghost use Rattle.burgee.specs.Calls.{ProbePath, ProbeTree, ProbeRpc, record_of, word};

use rotation::Record;
use rpc::Request;

fn record_of(kind: u32, live_slot: u32, live_len: u32, rotating: u32, candidate_len: u32) -> Record
    ensures { result ≡ record_of kind live_slot live_len rotating candidate_len }
{
    Record {
        kind: kind,
        live_slot: live_slot,
        live_len: live_len,
        rotating: rotating,
        candidate_len: candidate_len,
    }
}

// The action for one path, and the deciding rule.
pub fn burgee_probe_path(
    kind: u32,
    live_slot: u32,
    live_len: u32,
    rotating: u32,
    candidate_len: u32,
    store: &[u8],
    user: &[u8],
    mode: u32,
    origin: &[u8],
    path: &[u8],
) -> u64
    ensures { result ≡ word (ProbePath (record_of kind live_slot live_len rotating candidate_len)
        store.now user.now mode origin.now path.now) }
{
    let r = record_of(kind, live_slot, live_len, rotating, candidate_len);
    crate::word::of_path(rotation_probe::probe_path(r, store, user, mode, origin, path))
}

// ALL, NONE or MIXED for the paths at or beneath, and the rule that MIXED names.
pub fn burgee_probe_tree(
    kind: u32,
    live_slot: u32,
    live_len: u32,
    rotating: u32,
    candidate_len: u32,
    store: &[u8],
    user: &[u8],
    mode: u32,
    origin: &[u8],
    path: &[u8],
) -> u64
    ensures { result ≡ word (ProbeTree (record_of kind live_slot live_len rotating candidate_len)
        store.now user.now mode origin.now path.now) }
{
    let r = record_of(kind, live_slot, live_len, rotating, candidate_len);
    crate::word::of_tree(rotation_probe::probe_tree(r, store, user, mode, origin, path))
}

// The action for one RPC, and the rule that decides.
pub fn burgee_probe_rpc(
    kind: u32,
    live_slot: u32,
    live_len: u32,
    rotating: u32,
    candidate_len: u32,
    store: &[u8],
    identity: &[u8],
    path: &[u8],
    headers: &[u8],
) -> u64
    ensures { result ≡ word (ProbeRpc (record_of kind live_slot live_len rotating candidate_len)
        store.now identity.now path.now headers.now) }
{
    let r = record_of(kind, live_slot, live_len, rotating, candidate_len);
    crate::word::of_rpc_probe(rotation_probe::rpcs::probe_rpc(
        r,
        store,
        Request {
            identity,
            path,
            headers,
        },
    ))
}
