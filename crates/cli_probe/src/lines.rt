// The lines of an RPC probe.
ghost use Rattle.std.specs.Prelude.{◌≡◌};
ghost use Rattle.rotation_probe.specs.Answer.{answer_of};
ghost use Rattle.cli_probe.specs.Lines.{probe_lines};

use cli_policy::lines::ROOM;
use rotation_probe::rpcs::RpcAnswer;
use text_make::Text;

// The answer, and the rule that it is by; nothing for a refusal.
pub fn rpc(policy: &[u8], a: RpcAnswer) -> Text<ROOM>
    ensures { result ≡ probe_lines policy.now (answer_of a) }
{
    match a {
        RpcAnswer::PermitAll => Text::of(b"permit\nfactory\n"),
        RpcAnswer::Judged(v) => cli_policy::lines::decision(policy, v),
        RpcAnswer::Refused(_) => Text::new(),
    }
}
