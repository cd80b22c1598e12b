// The steps of a rotation.
use cli_console::source::Source;
use cli_show::console::Console;
use cli_show::{TEXT_ROOM, WORD_ROOM};
use refusal::Fault;
use rotation::{Kind, Record};

// Writes the record and the store to the file, and behind them what is left to read of `from`; prints the record where all went well.
fn keep(console: &mut Console, r: Record, store: &[u8], from: &mut Source) {
    let bytes = cli_record::to_bytes(r);
    let begun = cli_saving::begin(console, 3, true);
    let with_record = cli_saving::add(console, begun, &bytes);
    let with_store = cli_saving::add(console, with_record, store);
    let with_rest = cli_saving::add_rest(console, with_store, from);
    if cli_saving::finish(console, with_rest) {
        cli_record::print(console, r);
    }
}

// Keeps what a step makes of the record, or prints why it is refused.
fn settle(console: &mut Console, step: Result<Record, Fault>, store: &[u8], from: &mut Source) {
    match step {
        Ok(next) => keep(console, next, store, from),
        Err(fault) => cli_console::refused::at(console, fault.refusal.number(), fault.line),
    }
}

fn kind(word: &[u8]) -> Option<Kind> {
    match word {
        b"policy" => Some(Kind::Policy),
        b"table" => Some(Kind::Table),
        _ => None,
    }
}

// burgee rotate new FILE policy|table
fn new(console: &mut Console) {
    let mut word = [0u8; WORD_ROOM];
    let w = cli_console::input::word(console, 4, &mut word);
    match kind(&word[..w]) {
        Some(kind) => make(console, cli_record::factory(kind)),
        None => cli_console::say::usage(
            console,
            b"a record is for a policy or for a table",
            b"",
            b"rotate",
        ),
    }
}

// Makes the file, which may not be there.
fn make(console: &mut Console, r: Record) {
    let bytes = cli_record::to_bytes(r);
    let store = [0u8; limits::STORE_LENGTH];
    let begun = cli_saving::begin(console, 3, false);
    let with_record = cli_saving::add(console, begun, &bytes);
    let with_store = cli_saving::add(console, with_record, &store);
    if cli_saving::finish(console, with_store) {
        cli_record::print(console, r);
    }
}

// Keeps what an upload makes of record and store, or prints why it is refused.
fn settle_upload(
    console: &mut Console,
    step: Result<Record, Fault>,
    store: &[u8],
    text: &[u8],
    from: &mut Source,
) {
    match step {
        Ok(next) => keep(console, next, store, from),
        Err(fault) => {
            let number = fault.refusal.number();
            if number < 30 {
                cli_console::refused::of_text(console, text, number, fault.line);
            } else {
                cli_policy::fault::tell(console, text, number);
            }
        }
    }
}

// burgee rotate upload FILE TEXT
fn upload(console: &mut Console, r: Record, store: &mut [u8], from: &mut Source) {
    let mut text = [0u8; TEXT_ROOM];
    let got = cli_console::input::file(console, 4, &mut text);
    let n = got.count;
    if got.is_good {
        let step = rotation_upload::upload(r, store, &text[..n]);
        settle_upload(console, step, store, &text[..n], from);
    }
}

#[derive(Clone, Copy)]
enum Step {
    Start,
    Finalize,
    Close,
    Upload,
    New,
    Verdict,
    Tree,
    Rpc,
    Show,
}

// The step of that name.
fn named(word: &[u8]) -> Option<Step> {
    match word {
        b"start" => Some(Step::Start),
        b"finalize" => Some(Step::Finalize),
        b"close" => Some(Step::Close),
        b"upload" => Some(Step::Upload),
        b"new" => Some(Step::New),
        b"verdict" => Some(Step::Verdict),
        b"tree" => Some(Step::Tree),
        b"rpc" => Some(Step::Rpc),
        b"show" => Some(Step::Show),
        _ => None,
    }
}

// Whether a step takes that many words.
fn takes(step: Step, words: usize) -> bool {
    match step {
        Step::Start | Step::Finalize | Step::Close | Step::Show => words == 4,
        Step::Upload | Step::New => words == 5,
        Step::Verdict | Step::Tree => words == 8,
        Step::Rpc => words == 6 || words == 7,
    }
}

// A step on a record and its store; what stands behind them in the file is left to read of `from`.
fn run_on(
    console: &mut Console,
    step: Step,
    words: usize,
    r: Record,
    store: &mut [u8],
    from: &mut Source,
) {
    match step {
        Step::Start => settle(console, rotation_step::start(r, store.len()), store, from),
        Step::Finalize => settle(
            console,
            rotation_step::finalize(r, store.len()),
            store,
            from,
        ),
        Step::Close => settle(console, rotation_step::close(r, store.len()), store, from),
        Step::Upload => upload(console, r, store, from),
        Step::Verdict => cli_probe::table(console, r, store, false),
        Step::Tree => cli_probe::table(console, r, store, true),
        Step::Rpc => cli_probe::policy(console, r, store, words),
        _ => cli_record::tell(console, r, store.len()),
    }
}

// Reads the store, and takes the step.
fn run_with(console: &mut Console, step: Step, words: usize, r: Record, from: &mut Source) {
    let mut store = [0u8; limits::STORE_LENGTH];
    let got = cli_console::input::fill(console, 3, from, &mut store);
    let n = got.count;
    if got.is_good {
        run_on(console, step, words, r, &mut store[..n], from);
    }
}

// Reads the file: the record, then the store.
fn open(console: &mut Console, step: Step, words: usize) {
    let Some(mut from) = cli_console::input::open(console, 3) else {
        return;
    };
    let mut bytes = [0u8; cli_record::LENGTH];
    let got = cli_console::input::fill(console, 3, &mut from, &mut bytes);
    if !got.is_good {
        return;
    }
    if got.count != cli_record::LENGTH {
        cli_console::input::complain(console, 3, b": shorter than a record, which has 20 bytes");
        return;
    }
    run_with(
        console,
        step,
        words,
        cli_record::of_bytes(&bytes),
        &mut from,
    );
}

// The step, if there is one of that name and it takes that many words.
pub fn run(console: &mut Console, word: &[u8], words: usize) {
    let Some(step) = named(word) else {
        cli_console::say::usage(console, b"no such step of a rotation: ", word, b"rotate");
        return;
    };
    if !takes(step, words) {
        cli_console::say::misuse(console, b"rotate");
    } else if cli_console::input::is_standard(console, 3) {
        cli_console::say::usage(
            console,
            b"a record and its store are kept in a file",
            b"",
            b"rotate",
        );
    } else if let Step::New = step {
        new(console);
    } else {
        open(console, step, words);
    }
}
