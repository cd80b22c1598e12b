// The C boundary of RPC policies.
ghost use Rattle.std.specs.Prelude.{◌≡◌};
ghost use Rattle.burgee.specs.Calls.{PolicyCheck, RpcVerdict, word};

use rpc::Request;

// A policy: accepted or refused.
pub fn burgee_policy_check(policy: &[u8]) -> u64
    ensures { result ≡ word (PolicyCheck policy.now) }
{
    crate::word::of_policy(policy_check::check::check_policy(policy))
}

// The action for one RPC, and the rule that decides.
pub fn burgee_rpc_verdict(policy: &[u8], identity: &[u8], path: &[u8], headers: &[u8]) -> u64
    ensures { result ≡ word (RpcVerdict policy.now identity.now path.now headers.now) }
{
    crate::word::of_rpc(rpc_call::rpc_verdict(
        policy,
        Request {
            identity,
            path,
            headers,
        },
    ))
}
