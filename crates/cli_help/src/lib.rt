// Help: what the commands are, and for each what it prints, with an example. A page begins with how its commands are called, one to a line.
#![tactic(auto)]

ghost use Rattle.std.specs.Prelude.{IfSome, ◌≤◌, length};

use cli_show::Stream;
use cli_show::console::Console;

#[derive(Clone, Copy, PartialEq)]
enum Part {
    Page,
    Usage,
}

// What is asked: how a command is called, or that step of it, or its page.
#[derive(Clone, Copy)]
struct Asked<'a> {
    command: &'a [u8],
    step: &'a [u8],
    part: Part,
}

// Where the word after the one at `at` begins; none where that is another word.
fn after(page: &[u8], at: usize, word: &[u8]) -> Option<usize>
    ensures { IfSome result (λ next. next ≤ length page.now) }
{
    if page.len() <= at {
        return None;
    }
    if page.len() - at <= word.len() {
        return None;
    }
    let end = at + word.len();
    if !text::string::is_same(&page[at..end], word) {
        return None;
    }
    if (page[end] == b' ') | (page[end] == b'\n') {
        return Some(end + 1);
    }
    None
}

// Whether the line at `at` tells how the command is called, or that step of it.
fn tells(page: &[u8], at: usize, command: &[u8], step: &[u8]) -> bool {
    let Some(name) = after(page, at, b"burgee") else {
        return false;
    };
    let Some(next) = after(page, name, command) else {
        return false;
    };
    (step.len() == 0) | after(page, next, step).is_some()
}

// Prints how a command is called, where that is asked.
fn tell(console: &mut Console, line: &[u8], part: Part) {
    if let Part::Usage = part {
        cli_show::word_to(console, Stream::Error, b"usage: ");
        cli_show::word_to(console, Stream::Error, line);
        cli_show::word_to(console, Stream::Error, b"\n");
    }
}

// Where the line at `at` ends, at its LF.
fn line_end(page: &[u8], at: usize) -> usize
    requires { at ≤ length page.now }
    ensures { (at ≤ result) × (result ≤ length page.now) }
{
    text_search::find(page, at, b'\n')
}

// Whether one of the lines that the page begins with tells how the command is called, or that step of it; each is printed where that is asked.
fn tells_of(console: &mut Console, page: &[u8], asked: Asked) -> bool {
    let mut found = false;
    let mut at = 0;
    while at < page.len() {
        let end = line_end(page, at);
        if end == at {
            return found;
        }
        if page.len() <= end {
            return found;
        }
        if tells(page, at, asked.command, asked.step) {
            found = true;
            tell(console, &page[at..end], asked.part);
        }
        at = end + 1;
    }
    found
}

// Prints what is asked of the page, if it tells of the command: the lines of the step, or all of the command where it has no such step.
fn print(console: &mut Console, asked: Asked, page: &[u8]) -> bool {
    let of_command = Asked { step: b"", ..asked };
    if let Part::Page = asked.part {
        if !tells_of(console, page, of_command) {
            return false;
        }
        cli_show::word(console, page);
        return true;
    }
    tells_of(console, page, asked) || tells_of(console, page, of_command)
}

fn all(console: &mut Console) {
    cli_show::word(
        console,
        b"burgee: tries rule tables and policies\n\
        \n\
        burgee table FILE                                  checks a rule table\n\
        burgee show FILE                                   a rule table as readable text\n\
        burgee pack FILE [TABLE]                           readable text as a rule table\n\
        burgee groups FILE USER                            the groups that list a user\n\
        burgee verdict FILE USER read|write ORIGIN PATH    what a user may do at a path\n\
        burgee tree FILE USER read|write ORIGIN PATH       and at every path beneath it\n\
        burgee explain FILE USER read|write ORIGIN PATH    why: the rules that match, the best first\n\
        burgee report TABLE LOG                            how often each rule decided over a log of requests\n\
        burgee report-sum REPORT ..                        the sum of season reports\n\
        burgee season TABLE LOG                            a page on what the rules decided over a log of requests\n\
        burgee path read TEXT                              path text as path bytes\n\
        burgee path write BYTES                            path bytes as path text\n\
        burgee policy FILE                                 checks an RPC policy\n\
        burgee rpc FILE IDENTITY PATH [HEADERS-FILE]       whether a client may make a call\n\
        burgee log show FILE                               a log of requests as readable text\n\
        burgee log pack FILE                               readable text as a log\n\
        burgee rotate STEP FILE ..                         a rotation, tried by hand\n\
        burgee help [COMMAND]                              this page, or one command's; also burgee COMMAND --help\n\
        burgee version                                     the version of this program\n\
        \n\
        A FILE named - is standard input. Each line of an answer is one fact.\n\
        The exit status is 0 for an answer, 1 for a refusal, 2 for a call that is not understood\n\
        or a file that cannot be read or written, 3 where the program cannot be built or does not end as it should.\n",
    );
}

fn table(console: &mut Console, asked: Asked) -> bool {
    print(
        console,
        asked,
        b"burgee table FILE\n\
        \n\
        Checks a rule table: accepted, and how many groups, members and rules it has;\n\
        or the number of the refusal, its line, what it means, and the line itself.\n\
        \n\
        $ burgee table examples/files/yard.table\n\
        accepted\n\
        groups 2\n\
        members 3\n\
        rules 6\n",
    )
}

fn conversion(console: &mut Console, asked: Asked) -> bool {
    print(
        console,
        asked,
        b"burgee show FILE\n\
        burgee pack FILE [TABLE]\n\
        \n\
        A rule table as readable text, one thing a line, and that text back as the table: show and pack undo each other.\n\
        pack saves the table as the file TABLE, or prints it. A file that is there is replaced whole, and only where the text is accepted.\n\
        A line of the readable text is one of these, and ends with LF:\n\
        \n\
        version [VERSION] time T\n\
        group [NAME]\n\
        member [GROUP] [USER]\n\
        rule permit|deny read|write user|group [NAME] id [ID] origin [ORIGIN] PATH\n\
        \n\
        T is 16 hex digits. In brackets \\ stands before ] and \\. A line of another form is refused at its line, without a number;\n\
        a text that makes no table is refused by the table's number and line. Refusals of the two go to standard error.\n\
        \n\
        $ burgee show examples/files/yard.table | head -n 4\n\
        version [2026-11] time 000000006553f100\n\
        group [admin]\n\
        group [engineers]\n\
        member [admin] [stevie]\n\
        $ burgee show examples/files/yard.table | burgee pack - target/help.table\n\
        bytes 892\n\
        $ cmp target/help.table examples/files/yard.table && echo the same\n\
        the same\n\
        $ echo 'group admin' | burgee pack - target/help.table\n\
        refused at line 1: not a line of the readable form\n\
        line: group admin\n",
    )
}

fn groups(console: &mut Console, asked: Asked) -> bool {
    print(
        console,
        asked,
        b"burgee groups FILE USER\n\
        \n\
        How many groups of a rule table list the user, and the number and name of each.\n\
        Standard error says where the table names no such user, and the names that differ only in case.\n\
        \n\
        $ burgee groups examples/files/yard.table stevie\n\
        groups 2\n\
        group 0 admin\n\
        group 1 engineers\n",
    )
}

fn verdict(console: &mut Console, asked: Asked) -> bool {
    print(
        console,
        asked,
        b"burgee verdict FILE USER read|write ORIGIN PATH\n\
        \n\
        What the user may do at one path: permit or deny, and the deciding rule's number and id,\n\
        or default where no rule matches.\n\
        USER is named as in the table. ORIGIN is the path's origin, mostly empty: ''. PATH is path text, as / or /NAME[KEY=VALUE]/NAME.\n\
        Standard error says where the table names no such user, and the names that differ only in case.\n\
        \n\
        $ burgee verdict examples/files/yard.table ann write '' '/interfaces/interface[name=uplink]/config'\n\
        permit\n\
        rule 2\n\
        id eng-ports\n\
        $ burgee verdict examples/files/yard.table Ann read '' /system\n\
        burgee: the table names no user Ann; it names ann\n\
        deny\n\
        default\n",
    )
}

fn tree(console: &mut Console, asked: Asked) -> bool {
    print(
        console,
        asked,
        b"burgee tree FILE USER read|write ORIGIN PATH\n\
        \n\
        What the user may do at a path and at every path beneath it, also those that no machine has yet: ALL, NONE or MIXED.\n\
        With MIXED comes, of the rules by which some path beneath gets the other answer than PATH itself, the one with the smallest id.\n\
        USER is named as in the table. ORIGIN is the path's origin, mostly empty: ''. PATH is path text, as / or /NAME[KEY=VALUE]/NAME.\n\
        Standard error says where the table names no such user, and the names that differ only in case.\n\
        \n\
        $ burgee tree examples/files/yard.table stevie read '' /system\n\
        MIXED\n\
        rule 5\n\
        id eng-no-keys\n",
    )
}

fn explain(console: &mut Console, asked: Asked) -> bool {
    print(
        console,
        asked,
        b"burgee explain FILE USER read|write ORIGIN PATH\n\
        \n\
        The verdict, and then every rule that matches, in ranking order: the first decides, and of each other one\n\
        the line says at which step of the ranking it lost to the first. The steps are, in this order:\n\
        elements, definite keys, user over group, deny over permit, smaller id.\n\
        USER is named as in the table. ORIGIN is the path's origin, mostly empty: ''. PATH is path text, as / or /NAME[KEY=VALUE]/NAME.\n\
        Standard error says where the table names no such user, and the names that differ only in case.\n\
        \n\
        $ burgee explain examples/files/yard.table ann write '' '/interfaces/interface[name=uplink]/config'\n\
        permit\n\
        rule 2\n\
        id eng-ports\n\
        1 decides: rule 2, permit, elements 3, definite keys 0, group, id eng-ports\n\
        2 lost at elements: rule 3, deny, elements 2, definite keys 1, user, id ann-no-uplink\n\
        $ burgee explain examples/files/yard.table bob read '' /system\n\
        burgee: the table names no user bob\n\
        deny\n\
        default\n\
        no rule matches\n",
    )
}

fn report(console: &mut Console, asked: Asked) -> bool {
    print(
        console,
        asked,
        b"burgee report TABLE LOG\n\
        \n\
        The season report over a table and a log of requests (burgee log show and pack): 262 lines, each a decimal number. How often\n\
        each of the rules 0 to 255 decided; then reads permitted, denied by a rule and denied by default; then writes likewise.\n\
        A log has at most 1,000,000 lines, and is read in parts. The first line that is one too many or bad is refused.\n\
        Refusals go to standard error; so does how far it is, each second after the first, where that is a terminal.\n\
        \n\
        $ echo 'write [ann] origin [] /interfaces/interface[name=uplink]/config' | burgee log pack - >target/day.log\n\
        $ burgee report examples/files/yard.table target/day.log | sed -n '3p;260p'\n\
        1\n\
        1\n\
        $ echo 01 | burgee report examples/files/yard.table -\n\
        refused 51 at line 1: not a line of a log: mode, user, origin and path of a good request, in hex digits, then LF\n\
        line: 01\n",
    )
}

fn report_sum(console: &mut Console, asked: Asked) -> bool {
    print(
        console,
        asked,
        b"burgee report-sum REPORT ..\n\
        \n\
        The sum of season reports, line by line, as a report. A report is 262 lines, each a decimal number without leading zeros\n\
        of 64 bits at most. The first file that is none, or with which a sum has more than 64 bits, is refused by its line,\n\
        on standard error, and nothing is printed.\n\
        \n\
        $ burgee report-sum examples/files/week1.report examples/files/week2.report | head -n 3\n\
        218\n\
        97\n\
        58\n\
        $ sed '2s/^/0/' examples/files/week1.report | burgee report-sum examples/files/week2.report -\n\
        refused at line 2 of -: not a decimal number of 64 bits at most, without leading zeros\n\
        line: 045\n",
    )
}

fn season(console: &mut Console, asked: Asked) -> bool {
    print(
        console,
        asked,
        b"burgee season TABLE LOG\n\
        \n\
        A page on a table and a log of requests, for a person: the rules that decided, by falling count, each with its share of all requests\n\
        and a bar of at most 40 columns; the rules that never decided; and how many reads and writes were permitted and denied.\n\
        What is counted and what is refused is as with burgee report, which prints the figures alone.\n\
        \n\
        $ burgee season examples/files/yard.table examples/files/yard.log\n\
        requests 12\n\
        \n\
        \x20 count   share  bar                                       rule  action  id\n\
        \x20     4   33.3%  ########################################     1  permit  eng-interfaces\n\
        \x20     2   16.6%  ####################                         0  permit  admin-read\n\
        \x20     2   16.6%  ####################                         2  permit  eng-ports\n\
        \x20     2   16.6%  ####################                         5  deny    eng-no-keys\n\
        \x20     1    8.3%  ##########                                   3  deny    ann-no-uplink\n\
        \n\
        A share is of all requests, rounded down; a bar is of the largest count.\n\
        \n\
        rules that never decided\n\
        \x20 rule  action  id\n\
        \x20    4  permit  stevie-bgp\n\
        \n\
        \x20         permit   denied by rule  denied by default        all\n\
        read           6                2                  0          8\n\
        write          2                1                  1          4\n\
        all            8                3                  1         12\n\
        $ echo 01 | burgee season examples/files/yard.table -\n\
        refused 51 at line 1: not a line of a log: mode, user, origin and path of a good request, in hex digits, then LF\n\
        line: 01\n",
    )
}

fn path(console: &mut Console, asked: Asked) -> bool {
    print(
        console,
        asked,
        b"burgee path read TEXT\n\
        burgee path write BYTES\n\
        \n\
        Path text to path bytes in hex, as rules hold them, and back.\n\
        \n\
        $ burgee path read '/a[k=*]'\n\
        01016101016b012a\n\
        $ burgee path write 01016101016b012a\n\
        /a[k=*]\n\
        $ burgee path write 0x01\n\
        burgee: path bytes are pairs of the digits 0-9a-f\n\
        usage: burgee path write BYTES\n\
        Try: burgee help path\n",
    )
}

fn policy(console: &mut Console, asked: Asked) -> bool {
    print(
        console,
        asked,
        b"burgee policy FILE\n\
        \n\
        Checks an RPC policy: accepted, and how many rules each list has;\n\
        or the number of the refusal, the line of the fault, what it means, and the line itself.\n\
        \n\
        $ burgee policy examples/files/yard.json\n\
        accepted\n\
        deny_rules 1\n\
        allow_rules 2\n\
        $ sed 22d examples/files/yard.json | burgee policy -\n\
        refused 31 at line 22: not one JSON value, in printable bytes, nested to depth 16 at most\n\
        line: }\n",
    )
}

fn rpc(console: &mut Console, asked: Asked) -> bool {
    print(
        console,
        asked,
        b"burgee rpc FILE IDENTITY PATH [HEADERS-FILE]\n\
        \n\
        Whether a policy permits an RPC: permit or deny, and the deciding rule's list, number and name,\n\
        or default where no rule matches. The identity is '' without a client certificate.\n\
        A line of the headers' file is a name, a colon and a value.\n\
        \n\
        $ burgee rpc examples/files/yard.json spiffe://yard/officer/jo /gnoi.system.System/Reboot\n\
        permit\n\
        list allow_rules\n\
        rule 0\n\
        name officers\n\
        $ burgee rpc examples/files/yard.json spiffe://yard/dryer /gnoi.system.System/Reboot\n\
        deny\n\
        list deny_rules\n\
        rule 0\n\
        name no_reboot\n\
        $ echo 'site:north' | burgee rpc examples/files/yard.json '' /gnmi.gNMI/Get -\n\
        permit\n\
        list allow_rules\n\
        rule 1\n\
        name readers\n\
        $ burgee rpc examples/files/yard.json '' /gnmi.gNMI/Set\n\
        deny\n\
        default\n",
    )
}

fn log(console: &mut Console, asked: Asked) -> bool {
    print(
        console,
        asked,
        b"burgee log show FILE\n\
        burgee log pack FILE\n\
        \n\
        A log of path requests as readable text, a request a line, and that text back as the log: the two undo each other, line by line.\n\
        A line of the readable text is this, and ends with LF:\n\
        \n\
        read|write [USER] origin [ORIGIN] PATH\n\
        \n\
        In brackets \\ stands before ] and \\. USER, ORIGIN and PATH are as a verdict takes them.\n\
        A log can be long, and is converted in parts: what was made before the line that is refused is printed.\n\
        Refusals go to standard error: of a log by number and line, of readable text by the line, as burgee pack does.\n\
        \n\
        $ printf 'read [ann] origin [] /system\\nwrite [ann] origin [] /interfaces/interface[name=uplink]\\n' | burgee log pack - | tee target/help.log\n\
        0103616e6e00010673797374656d00\n\
        0203616e6e00020a696e74657266616365730009696e7465726661636501046e616d650675706c696e6b\n\
        $ burgee log show target/help.log\n\
        read [ann] origin [] /system\n\
        write [ann] origin [] /interfaces/interface[name=uplink]\n\
        $ sed s/^02/03/ target/help.log | burgee log show -\n\
        read [ann] origin [] /system\n\
        refused 51 at line 2: not a line of a log: mode, user, origin and path of a good request, in hex digits, then LF\n\
        line: 0303616e6e00020a696e74657266616365730009696e7465726661636501046e616d650675706c696e6b\n",
    )
}

fn rotate(console: &mut Console, asked: Asked) -> bool {
    print(
        console,
        asked,
        b"burgee rotate new FILE policy|table\n\
        burgee rotate show FILE\n\
        burgee rotate start FILE\n\
        burgee rotate upload FILE TEXT\n\
        burgee rotate verdict FILE USER read|write ORIGIN PATH\n\
        burgee rotate tree FILE USER read|write ORIGIN PATH\n\
        burgee rotate rpc FILE IDENTITY PATH [HEADERS-FILE]\n\
        burgee rotate finalize FILE\n\
        burgee rotate close FILE\n\
        \n\
        A rotation tried by hand. FILE holds the record and its store; new makes it, where no file of that name is there.\n\
        Each step prints what the record then says, and show prints it without a step.\n\
        A step writes a new file beside FILE, flushes it to the disk and renames it: at every moment FILE is as before the step, or as after it.\n\
        A verdict, a tree answer or an RPC is judged on what is in force: the candidate, else the live text, else factory,\n\
        which denies all (table) or permits all (policy).\n\
        \n\
        $ rm -f target/help.rotation\n\
        $ burgee rotate new target/help.rotation table\n\
        kind table\n\
        slot 0\n\
        live none\n\
        rotation off\n\
        candidate none\n\
        $ burgee rotate verdict target/help.rotation ann read '' /system\n\
        deny\n\
        factory\n\
        $ burgee rotate finalize target/help.rotation\n\
        refused 13: no rotation is on\n\
        $ burgee rotate new target/help.rotation policy\n\
        burgee: target/help.rotation: it is there already\n\
        $ rm target/help.rotation\n\
        $ burgee rotate new target/help.rotation policy | head -n 1\n\
        kind policy\n\
        $ burgee rotate start target/help.rotation | tail -n 2\n\
        rotation on\n\
        candidate none\n\
        $ burgee rotate upload target/help.rotation examples/files/yard.json | tail -n 1\n\
        candidate 525\n\
        $ burgee rotate rpc target/help.rotation spiffe://yard/dryer /gnoi.system.System/Reboot\n\
        deny\n\
        list deny_rules\n\
        rule 0\n\
        name no_reboot\n\
        $ burgee rotate show target/help.rotation\n\
        kind policy\n\
        slot 0\n\
        live none\n\
        rotation on\n\
        candidate 525\n",
    )
}

fn about_version(console: &mut Console, asked: Asked) -> bool {
    print(
        console,
        asked,
        b"burgee version\n\
        \n\
        The version of this program, which is that of include/burgee.h; also burgee --version.\n\
        \n\
        $ burgee version\n\
        burgee 0.1.0\n",
    )
}

// The version of the product, as include/burgee.h has it.
pub fn version(console: &mut Console) {
    cli_show::word(console, b"burgee 0.1.0\n");
}

// What is to be printed of the page that tells of a command; false where no page does.
fn find(console: &mut Console, asked: Asked) -> bool {
    table(console, asked)
        | conversion(console, asked)
        | groups(console, asked)
        | verdict(console, asked)
        | tree(console, asked)
        | explain(console, asked)
        | report(console, asked)
        | report_sum(console, asked)
        | season(console, asked)
        | path(console, asked)
        | policy(console, asked)
        | rpc(console, asked)
        | log(console, asked)
        | rotate(console, asked)
        | about_version(console, asked)
}

// One command's help, or all of it; false where there is no such command.
pub fn on(console: &mut Console, command: &[u8]) -> bool {
    if (command.len() == 0) | text::string::is_same(command, b"help") {
        all(console);
        return true;
    }
    let asked = Asked {
        command,
        step: b"",
        part: Part::Page,
    };
    find(console, asked)
}

// Prints to standard error how a command is called, or that step of it.
pub fn usage(console: &mut Console, command: &[u8], step: &[u8]) {
    let asked = Asked {
        command,
        step,
        part: Part::Usage,
    };
    let _ = find(console, asked);
}
