// Questions about a policy. Each line goes up to its LF.
ghost use Rattle.std.specs.Prelude.{◌≤◌, length};

use cli_show::console::Console;

pub fn check(console: &mut Console, policy: &[u8]) {
    crate::word::show_checked(console, burgee::policies::burgee_policy_check(policy));
}

fn ask(console: &mut Console, policy: &[u8], identity: &[u8], path: &[u8], headers: &[u8])
    requires { length headers.now ≤ 65536 }
{
    let mut lines = [0u8; cli_show::TEXT_ROOM];
    crate::split::lines(headers, b'|', &mut lines);
    let answer = burgee::policies::burgee_rpc_verdict(
        policy,
        identity,
        path,
        &lines[0..headers.len()],
    );
    crate::word::show_verdict(console, answer, false);
}

// `IDENTITY,PATH,HEADERS`.
pub fn rpc(console: &mut Console, policy: &[u8], line: &[u8])
    requires { length line.now ≤ 65536 }
{
    let comma = crate::split::up_to(line, 0, b',');
    let path = crate::split::after(line, comma);
    let second = crate::split::up_to(line, path, b',');
    let headers = crate::split::after(line, second);
    let end = crate::split::up_to(line, headers, b'\n');
    ask(
        console,
        policy,
        &line[0..comma],
        &line[path..second],
        &line[headers..end],
    );
}
