// Files saved whole. The new file is written beside the old one, in the same folder, flushed to the disk, and then renamed: at every moment the name
// stands for the old file or for the new one. Where something fails, the new file is removed, and a complaint tells why.
#![tactic(auto)]

ghost use Rattle.std.specs.Prelude.{◌≤◌, length};
ghost use Rattle.cli_show.specs.Counts.{IsPrefixLen};

use cli_console::source;
use cli_console::source::Source;
use cli_show::WORD_ROOM;
use cli_show::console::Console;
use std::fs::{File, OpenOptions};
use std::io::{Cursor, ErrorKind, Read, Write};
use std::random::RandomSource;
use std::{fs, io};

// Room for a path, and for what is put behind it.
const ROOM: usize = WORD_ROOM + 64;

// How many bytes are copied at once.
const COPY_ROOM: usize = 65536;

// A new file beside the one that is saved: whether it may take another's place (the rest holds in either case), the argument that names that one, the
// number in its own name, and the folder of both.
#[derive(Drop)]
pub struct Beside {
    pub may_replace: bool,
    pub i: usize,
    pub token: u64,
    pub folder: File,
}

// The same, while it is written.
#[derive(Drop)]
pub struct Saving {
    pub beside: Beside,
    pub file: File,
}

// What stands at a name: each is met in its own way.
#[derive(Drop)]
enum Place {
    Free,
    Taken,
    Link,
    Unknown,
}

// Stores s behind the first n bytes, where there is room for it; answers the end.
fn append(s: &[u8], out: &mut [u8], n: usize) -> usize
    requires { n ≤ length out.old }
    ensures { IsPrefixLen result out.new }
{
    if s.len() <= out.len() - n {
        text::fill::copy(s, out, n);
        return n + s.len();
    }
    n
}

// The name that argument i is, and then s.
fn name_and(console: &Console, i: usize, s: &[u8], out: &mut [u8]) -> usize
    ensures { IsPrefixLen result out.new }
{
    let n = cli_console::input::word(console, i, out);
    append(s, out, n)
}

// The name of the new file.
fn name_beside(console: &Console, i: usize, token: u64, out: &mut [u8]) -> usize
    ensures { IsPrefixLen result out.new }
{
    let n = name_and(console, i, b".unfinished-", out);
    let mut digits = [0u8; 8];
    let _ = write!(Cursor::new(&mut digits[..]), "{token:08x}");
    append(&digits, out, n)
}

fn wide(b: u8) -> u64
    ensures { result ≤ 255 }
{
    b as u64
}

// A number by chance, so that no file has the name already. Where one has it all the same, it is not opened.
fn chance(console: &Console) -> u64 {
    let mut b = [0u8; 4];
    let _ = console.rt.fill_bytes(&mut b);
    wide(b[0]) + 256 * wide(b[1]) + 65536 * wide(b[2]) + 16777216 * wide(b[3])
}

// How many bytes of a path name its folder: those up to its last slash.
fn folder_length(path: &[u8]) -> usize
    ensures { IsPrefixLen result path.now }
{
    let mut i = path.len();
    while 0 < i {
        if path[i - 1] == b'/' {
            return i;
        }
        i -= 1;
    }
    0
}

fn open_folder(console: &Console, path: &[u8]) -> io::Result<File> {
    let n = folder_length(path);
    if n == 0 {
        return File::open(&console.rt, ".");
    }
    File::open(&console.rt, source::path(&path[..n])?)
}

// What a name stands for, which is not followed.
fn look(console: &Console, name: &[u8]) -> io::Result<Place> {
    let found = fs::symlink_metadata(&console.rt, source::path(name)?)?;
    if found.is_symlink() {
        return Ok(Place::Link);
    }
    Ok(Place::Taken)
}

// Complains of a call of the system on the file that argument i names.
fn complain_of(console: &mut Console, i: usize, error: io::Error) {
    let mut name = [0u8; ROOM];
    let n = cli_console::input::word(console, i, &mut name);
    cli_console::say::failure(console, &name[..n], error);
}

// What stands at the name that argument i is; Unknown after a complaint.
fn place_of(console: &mut Console, i: usize) -> Place {
    let mut name = [0u8; ROOM];
    let n = cli_console::input::word(console, i, &mut name);
    match look(console, &name[..n]) {
        Ok(place) => place,
        Err(error) if error.kind() == ErrorKind::NotFound => Place::Free,
        Err(error) => {
            complain_of(console, i, error);
            Place::Unknown
        }
    }
}

// Opens the file of that name, which has to be one that may be written, and flushes it. It is closed at the end.
fn flush_named(console: &Console, name: &[u8]) -> io::Result<()> {
    let file = OpenOptions::new()
        .read(true)
        .write(true)
        .open(&console.rt, source::path(name)?)?;
    file.sync_all()
}

// Flushes the file that is to be replaced; a device or a folder cannot be flushed so.
fn flush_old(console: &mut Console, i: usize) -> bool {
    let mut name = [0u8; ROOM];
    let n = cli_console::input::word(console, i, &mut name);
    // It is closed before a complaint, since standard error, where it was closed, had its descriptor.
    match flush_named(console, &name[..n]) {
        Ok(()) => true,
        Err(error) => {
            complain_of(console, i, error);
            false
        }
    }
}

// Makes the new file, in the folder of the name.
fn create(console: &Console, i: usize, may_replace: bool) -> io::Result<Saving> {
    let token = chance(console);
    let mut new = [0u8; ROOM];
    let b = name_beside(console, i, token, &mut new);
    let mut name = [0u8; ROOM];
    let n = cli_console::input::word(console, i, &mut name);
    let folder = open_folder(console, &name[..n])?;
    let file = OpenOptions::new()
        .write(true)
        .create_new(true)
        .open(&console.rt, source::path(&new[..b])?)?;
    let beside = Beside {
        may_replace,
        i,
        token,
        folder,
    };
    Ok(Saving { beside, file })
}

// The same, or a complaint.
fn open(console: &mut Console, i: usize, may_replace: bool) -> Option<Saving> {
    match create(console, i, may_replace) {
        Ok(saving) => Some(saving),
        Err(error) => {
            complain_of(console, i, error);
            None
        }
    }
}

fn complain_of_taken(console: &mut Console, i: usize) {
    cli_console::input::complain(console, i, b": it is there already");
}

// Begins to save the file that argument i names: one that is there is replaced at the end, or, unless it may be, complained of. Nothing is answered
// after a complaint, here and below.
pub fn begin(console: &mut Console, i: usize, may_replace: bool) -> Option<Saving> {
    match place_of(console, i) {
        Place::Free => open(console, i, may_replace),
        Place::Taken => {
            if !may_replace {
                complain_of_taken(console, i);
                return None;
            }
            if !flush_old(console, i) {
                return None;
            }
            open(console, i, may_replace)
        }
        Place::Link => {
            cli_console::input::complain(console, i, b": a symbolic link, not the file itself");
            None
        }
        Place::Unknown => None,
    }
}

fn remove_beside(console: &Console, i: usize, token: u64) -> io::Result<()> {
    let mut beside = [0u8; ROOM];
    let b = name_beside(console, i, token, &mut beside);
    fs::remove_file(&console.rt, source::path(&beside[..b])?)
}

// Gives up: the new file is removed.
fn abandon(console: &Console, s: &Beside) {
    let _ = remove_beside(console, s.i, s.token);
}

// Complains of a call on the new file that failed, and gives up.
fn fail(console: &mut Console, s: &Beside, error: io::Error) {
    complain_of(console, s.i, error);
    abandon(console, s);
}

// Writes these bytes next.
pub fn add(console: &mut Console, saving: Option<Saving>, bytes: &[u8]) -> Option<Saving> {
    let mut s = saving?;
    match s.file.write_all(bytes) {
        Ok(()) => Some(s),
        Err(error) => {
            fail(console, &s.beside, error);
            None
        }
    }
}

// Reads once, and writes what came; answers how many bytes that was.
fn copy_some(from: &mut Source, to: &mut File) -> io::Result<usize> {
    let mut buf = [0u8; COPY_ROOM];
    let n = from.read(&mut buf)?;
    to.write_all(&buf[..n])?;
    Ok(n)
}

// Copies what is left to read. A proved loop has to end, and nothing says that a file does: the turns are counted, up to a number that none uses up.
fn copy_rest(from: &mut Source, to: &mut File) -> io::Result<()> {
    for _ in 0..u64::MAX {
        if copy_some(from, to)? == 0 {
            return Ok(());
        }
    }
    Err(io::Error::from(ErrorKind::FileTooLarge))
}

// Writes next what is left to read of a source.
pub fn add_rest(
    console: &mut Console,
    saving: Option<Saving>,
    from: &mut Source,
) -> Option<Saving> {
    let mut s = saving?;
    match copy_rest(from, &mut s.file) {
        Ok(()) => Some(s),
        Err(error) => {
            fail(console, &s.beside, error);
            None
        }
    }
}

// Flushes the new file and closes it.
fn close(console: &mut Console, s: Saving) -> Option<Beside> {
    let Saving { beside, file } = s;
    let flushed = file.sync_all();
    drop(file);
    match flushed {
        Ok(()) => Some(beside),
        Err(error) => {
            fail(console, &beside, error);
            None
        }
    }
}

// Whether the new file may have its name: a last look, where it may not take another's place.
fn is_free(console: &mut Console, s: &Beside) -> bool {
    if s.may_replace {
        return true;
    }
    match place_of(console, s.i) {
        Place::Free => true,
        Place::Unknown => false,
        _ => {
            complain_of_taken(console, s.i);
            false
        }
    }
}

fn rename_beside(console: &Console, i: usize, token: u64) -> io::Result<()> {
    let mut new = [0u8; ROOM];
    let b = name_beside(console, i, token, &mut new);
    let mut name = [0u8; ROOM];
    let n = cli_console::input::word(console, i, &mut name);
    fs::rename(
        &console.rt,
        source::path(&new[..b])?,
        source::path(&name[..n])?,
    )
}

// Gives the new file its name.
fn rename(console: &mut Console, s: Beside) -> Option<Beside> {
    match rename_beside(console, s.i, s.token) {
        Ok(()) => Some(s),
        Err(error) => {
            fail(console, &s, error);
            None
        }
    }
}

// Some file systems cannot flush a folder, and say that the call is not valid.
fn sync_folder(folder: &File) -> io::Result<()> {
    match folder.sync_all() {
        Err(error) if error.kind() == ErrorKind::InvalidInput => Ok(()),
        flushed => flushed,
    }
}

// Flushes the folder, so that the new name is on the disk too.
fn flush_folder(console: &mut Console, s: Beside) -> bool {
    let mut told = [0u8; ROOM];
    let n = name_and(
        console,
        s.i,
        b": saved, but its folder is not flushed",
        &mut told,
    );
    match sync_folder(&s.folder) {
        Ok(()) => true,
        Err(error) => {
            cli_console::say::failure(console, &told[..n], error);
            false
        }
    }
}

// Saves the file under its name.
fn settle(console: &mut Console, saving: Option<Saving>) -> Option<Beside> {
    let s = close(console, saving?)?;
    if !is_free(console, &s) {
        abandon(console, &s);
        return None;
    }
    rename(console, s)
}

// Ends what `begin` began: answers whether all went well.
pub fn finish(console: &mut Console, saving: Option<Saving>) -> bool {
    match settle(console, saving) {
        Some(s) => flush_folder(console, s),
        None => false,
    }
}
