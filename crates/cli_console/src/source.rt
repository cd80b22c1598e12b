// What is read: a file, or standard input.
use cli_show::console::Console;
use std::fs::File;
use std::io::{ErrorKind, Read, Stdin};
use std::os::fd::AsRawFd;
use std::{io, str};

#[derive(Drop)]
pub enum Source {
    Standard(Stdin),
    File(File),
}

// A name as std takes it, which has to be text.
pub fn path(name: &[u8]) -> io::Result<&str> {
    match str::from_utf8(name) {
        Ok(path) => Ok(path),
        Err(_) => Err(io::Error::from(ErrorKind::InvalidFilename)),
    }
}

// The file of that name. Its descriptor is not 0, which is read for `-` alone, and which a file gets where standard input is closed.
pub fn open_named(console: &Console, name: &[u8]) -> io::Result<File> {
    let file = File::open(&console.rt, path(name)?)?;
    if file.as_raw_fd() == 0 {
        return file.try_clone();
    }
    Ok(file)
}

impl Read for Source {
    fn read(&mut self, buf: &mut [u8]) -> io::Result<usize> {
        match self {
            Source::Standard(stdin) => stdin.read(buf),
            Source::File(file) => file.read(buf),
        }
    }
}
