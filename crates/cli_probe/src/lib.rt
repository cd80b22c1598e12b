// The probes of a rotation: a request judged on what is in force.
#![tactic(auto)]

pub mod lines;

use cli_answers::lines::Fallback;
use cli_show::console::Console;
use cli_show::{TEXT_ROOM, WORD_ROOM};
use rotation::{Kind, Record};
use rotation_probe::force::find_source;
use rotation_probe::rpcs::RpcAnswer;
use rpc::Request;

// What is asked of a path; `text` names the rules.
fn answer_table(
    console: &mut Console,
    r: Record,
    store: &[u8],
    text: &[u8],
    is_tree: bool,
    user: &[u8],
    mode: u32,
    origin: &[u8],
    path: &[u8],
    fallback: Fallback,
) {
    cli_names::tell(console, text, user);
    if is_tree {
        let a = rotation_probe::probe_tree(r, store, user, mode, origin, path);
        cli_answers::tree(console, text, a, fallback);
    } else {
        let a = rotation_probe::probe_path(r, store, user, mode, origin, path);
        cli_answers::path(console, text, a, fallback);
    }
}

// The same, on what is in force.
fn judge(
    console: &mut Console,
    r: Record,
    store: &[u8],
    is_tree: bool,
    user: &[u8],
    mode: u32,
    origin: &[u8],
    path: &[u8],
) {
    let (text, fallback): (&[u8], Fallback) = match find_source(r, store.len(), Kind::Table) {
        Err(refusal) => {
            cli_console::refused::at(console, refusal.number(), 0);
            return;
        }
        Ok(None) => (b"", Fallback::Factory),
        Ok(Some(part)) => (&store[part.start..part.end], Fallback::Default),
    };
    answer_table(
        console, r, store, text, is_tree, user, mode, origin, path, fallback,
    );
}

// burgee rotate verdict|tree FILE USER read|write ORIGIN PATH
pub fn table(console: &mut Console, r: Record, store: &[u8], is_tree: bool) {
    let mut user = [0u8; WORD_ROOM];
    let u = cli_console::input::word(console, 4, &mut user);
    let mode = cli_console::input::mode(console, 5, b"rotate");
    let mut origin = [0u8; WORD_ROOM];
    let o = cli_console::input::word(console, 6, &mut origin);
    let mut path = [0u8; TEXT_ROOM];
    let p = cli_console::input::word(console, 7, &mut path);
    if mode != 0 {
        judge(
            console,
            r,
            store,
            is_tree,
            &user[..u],
            mode,
            &origin[..o],
            &path[..p],
        );
    }
}

// A probe's answer; `policy` names the rules.
fn tell_rpc(console: &mut Console, policy: &[u8], a: RpcAnswer) {
    cli_show::word(console, lines::rpc(policy, a).as_bytes());
    if let RpcAnswer::Refused(number) = a {
        cli_policy::fault::tell(console, policy, number);
    }
}

// The same, with the text in force.
fn answer_rpc(console: &mut Console, r: Record, store: &[u8], a: RpcAnswer) {
    match find_source(r, store.len(), Kind::Policy) {
        Ok(Some(part)) => tell_rpc(console, &store[part.start..part.end], a),
        _ => tell_rpc(console, b"", a),
    }
}

// burgee rotate rpc FILE IDENTITY PATH [HEADERS-FILE]
pub fn policy(console: &mut Console, r: Record, store: &[u8], words: usize) {
    let mut identity = [0u8; WORD_ROOM];
    let i = cli_console::input::word(console, 4, &mut identity);
    let mut path = [0u8; WORD_ROOM];
    let p = cli_console::input::word(console, 5, &mut path);
    let mut headers = [0u8; TEXT_ROOM];
    let got = cli_policy::rpcs::headers(console, 6, words, &mut headers);
    let h = got.count;
    if got.is_good {
        let request = Request {
            identity: &identity[..i],
            path: &path[..p],
            headers: &headers[..h],
        };
        let a = rotation_probe::rpcs::probe_rpc(r, store, request);
        answer_rpc(console, r, store, a);
    }
}
