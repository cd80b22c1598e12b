// 40 and 41: whether a request can be judged.
ghost use Rattle.std.specs.Prelude.{◌≡◌};
ghost use Rattle.refusal.specs.Refusal.{code};
ghost use Rattle.rpc.specs.Request.{bad_text, rpc_refusal};

use refusal::Refusal;
use rpc::Request;

// 40, for the identity or the path.
#[tactic(auto, using(text::proofs::Choices::choices), unfolding(rpc::specs::Request::bad_text))]
fn is_bad_text(t: &[u8]) -> bool
    ensures { result ≡ bad_text t.now }
{
    limits::MAX_REQUEST_STRING < t.len() || !text::string::all_print(t)
}

// Why a request cannot be judged, if so.
#[tactic(auto, using(text::proofs::Choices::choices), unfolding(rpc::specs::Request::rpc_refusal))]
pub fn request_refusal(request: Request) -> Result<(), Refusal>
    ensures { code result ≡ rpc_refusal request.entry.identity.now request.entry.path.now request.entry.headers.now }
{
    if is_bad_text(request.identity) || is_bad_text(request.path) {
        return Err(Refusal::BadCaller);
    }
    if crate::headers::is_bad_headers(request.headers) {
        return Err(Refusal::BadHeaders);
    }
    Ok(())
}
