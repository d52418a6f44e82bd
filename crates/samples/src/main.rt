// Lists every circuit file that its arguments name: the name on a line, and the listing after it.
#![tactic(auto)]

use circuit::FILE_LENGTH;
use listing::ROOM;
use std::alloc::{AllocError, Global};
use std::fs::File;
use std::io;
use streams::{argument, read_full};

// Room for any path.
const LONGEST_NAME: usize = 4096;

// The system's words for what failed, without its number.
fn reason(alloc: Global, error: io::Error) -> Result<String, AllocError> {
    let text = format!(in alloc; "{error}")?;
    let words = match text.as_str().split_once(" (os error ") {
        Some((words, _)) => String::from_str(alloc, words)?,
        None => text,
    };
    Ok(words)
}

// Room is fixed, since nothing is allocated: one byte more than a file has is enough to tell an input that is too long.
fn list_file(rt: &HostRuntime, name: &str) -> io::Result<()> {
    let mut file = match File::open(rt, name) {
        Ok(file) => file,
        Err(error) => {
            let why = reason(rt.alloc(), error)?;
            return eprintln!(rt; "{name}: {why}");
        }
    };
    let mut bytes = [0u8; FILE_LENGTH + 1];
    let count = read_full(&mut file, &mut bytes)?;
    rt.println(name)?;
    let mut text = [0u8; ROOM];
    let listed = listing::list(&bytes[..count], &mut text);
    rt.write_all(&text[..listed.length])
}

// Lists the file that argument i names, and answers whether there is such an argument. A name that is longer than the buffer counts as empty.
// A path is text here: bytes that are no UTF-8 name no file.
fn list_argument(rt: &HostRuntime, i: usize) -> io::Result<bool> {
    let mut name = [0u8; LONGEST_NAME];
    let Some(length) = argument(rt, i, &mut name) else {
        return Ok(false);
    };
    match str::from_utf8(&name[..length]) {
        Ok(name) => list_file(rt, name)?,
        Err(_) => {
            rt.stderr().write_all(&name[..length])?;
            rt.stderr().write_all(b": not UTF-8\n")?;
        }
    }
    Ok(true)
}

fn main(rt: HostRuntime) -> io::Result<()> {
    for i in 1..usize::MAX {
        if !list_argument(&rt, i)? {
            break;
        }
    }
    Ok(())
}
