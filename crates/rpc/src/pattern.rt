// Patterns of a policy.
ghost use Rattle.std.specs.Prelude.{◌≡◌};
ghost use Rattle.rpc.specs.Pattern.{matches};

// `*` any nonempty value, `*s` a suffix, `p*` a prefix, else the same bytes.
#[tactic(auto, using(crate::proofs::Patterns::ways))]
pub fn is_match(p: &[u8], v: &[u8]) -> bool
    ensures { result ≡ matches p.now v.now }
{
    match p {
        [b'*'] => !v.is_empty(),
        [b'*', suffix @ ..] => text_affix::ends_with(suffix, v),
        [prefix @ .., b'*'] => text_affix::starts_with(prefix, v),
        _ => text::string::is_same(p, v),
    }
}
