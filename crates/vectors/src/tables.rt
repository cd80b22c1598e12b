// Questions about a table. Each line goes up to its LF.

use cli_show::console::Console;

pub fn check(console: &mut Console, table: &[u8]) {
    crate::word::show_checked(console, burgee::burgee_table_check(table));
}

// `USER`.
pub fn groups(console: &mut Console, table: &[u8], line: &[u8]) {
    let end = crate::split::up_to(line, 0, b'\n');
    crate::word::show_groups(console, burgee::burgee_group_count(table, &line[0..end]));
}

fn ask(
    console: &mut Console,
    table: &[u8],
    is_tree: bool,
    mode: u32,
    user: &[u8],
    origin: &[u8],
    path: &[u8],
) {
    let word = if is_tree {
        burgee::burgee_tree_verdict(table, user, mode, origin, path)
    } else {
        burgee::burgee_path_verdict(table, user, mode, origin, path)
    };
    crate::word::show_verdict(console, word, is_tree);
}

// `MODE USER,ORIGIN,PATH`.
pub fn request(console: &mut Console, table: &[u8], is_tree: bool, line: &[u8]) {
    let user = crate::split::after(line, crate::split::up_to(line, 0, b' '));
    let comma = crate::split::up_to(line, user, b',');
    let origin = crate::split::after(line, comma);
    let second = crate::split::up_to(line, origin, b',');
    let path = crate::split::after(line, second);
    let end = crate::split::up_to(line, path, b'\n');
    ask(
        console,
        table,
        is_tree,
        crate::split::digit(line) as u32,
        &line[user..comma],
        &line[origin..second],
        &line[path..end],
    );
}
