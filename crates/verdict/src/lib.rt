#![tactic(auto)]

// The ranking of rules, as a number.
ghost use Rattle.std.specs.Prelude.{◌≡◌, ◌<◌};
ghost use Rattle.verdict.specs.Order.{one_unless};
ghost use Rattle.verdict.specs.Rank.{key_radix, rank_by};

// More than a rule has definite keys.
const KEY_RADIX: usize = 65536;

// 1 unless b holds: for a user, which is no group, and for a deny, which is no permit.
pub fn one_unless(b: bool) -> usize
    ensures { result ≡ one_unless b }
{
    if b { 0 } else { 1 }
}

// More elements, then more definite keys, then user over group, then deny over permit.
pub fn rank(elements: usize, keys: usize, group: bool, permit: bool) -> usize
    requires { (elements < 65536) × (keys < key_radix) }
    ensures { result ≡ rank_by elements keys group permit }
{
    let user = one_unless(group);
    let deny = one_unless(permit);
    ((elements * KEY_RADIX + keys) * 2 + user) * 2 + deny
}
