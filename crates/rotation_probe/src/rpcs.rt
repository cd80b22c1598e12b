// The RPC probe.
ghost use Rattle.std.specs.Prelude.{◌≡◌};
ghost use Rattle.rpc.specs.Request.{rpc_refusal};
ghost use Rattle.rpc.specs.Call.{rpc_verdict};
ghost use Rattle.rotation_probe.specs.Answer.{Judged, answer_of};
ghost use Rattle.rotation_probe.specs.Rpc.{factory_rpc, probe_rpc};

use rotation::{Kind, Record};
use rpc::{Request, Verdict};

// The answer of an RPC probe: an answer without a text, one by a text, or a refusal.
#[derive(Clone, Copy)]
pub enum RpcAnswer {
    // Without a text: everything is permitted, and no rule named.
    PermitAll,
    Judged(Verdict),
    Refused(u8),
}

// Kind 1 without a text permits all, once the request is judged.
fn factory_rpc(request: Request) -> RpcAnswer
    ensures { answer_of result ≡ factory_rpc (rpc_refusal request.entry.identity.now request.entry.path.now request.entry.headers.now) }
{
    match rpc_request::request::request_refusal(request) {
        Ok(()) => RpcAnswer::PermitAll,
        Err(refusal) => RpcAnswer::Refused(refusal.number()),
    }
}

// By a policy text.
fn judge(policy: &[u8], request: Request) -> RpcAnswer
    ensures { answer_of result ≡ Judged (rpc_verdict policy.now request.entry.identity.now request.entry.path.now request.entry.headers.now) }
{
    match rpc_call::rpc_verdict(policy, request) {
        Ok(verdict) => RpcAnswer::Judged(verdict),
        Err(refusal) => RpcAnswer::Refused(refusal.number()),
    }
}

// The answer for one RPC.
pub fn probe_rpc(r: Record, store: &[u8], request: Request) -> RpcAnswer
    ensures { answer_of result ≡ probe_rpc r store.now request.entry.identity.now request.entry.path.now request.entry.headers.now }
{
    match crate::force::find_source(r, store.len(), Kind::Policy) {
        Err(refusal) => RpcAnswer::Refused(refusal.number()),
        Ok(None) => factory_rpc(request),
        Ok(Some(part)) => judge(&store[part.start..part.end], request),
    }
}
