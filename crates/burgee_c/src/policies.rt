// The C boundary of RPC policies.
ghost use Rattle.std.specs.Prelude.{◌≡◌};
ghost use Rattle.burgee.specs.Calls.{PolicyCheck, RpcVerdict, word};

// A policy: accepted or refused.
#[unsafe(no_mangle)]
pub extern "C" fn burgee_policy_check(policy: &[u8]) -> u64
    ensures { result ≡ word (PolicyCheck policy.now) }
{
    burgee::policies::burgee_policy_check(policy)
}

// The action for one RPC, and the rule that decides.
#[unsafe(no_mangle)]
pub extern "C" fn burgee_rpc_verdict(
    policy: &[u8],
    identity: &[u8],
    path: &[u8],
    headers: &[u8],
) -> u64
    ensures { result ≡ word (RpcVerdict policy.now identity.now path.now headers.now) }
{
    burgee::policies::burgee_rpc_verdict(policy, identity, path, headers)
}
