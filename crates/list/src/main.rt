// Lists the circuit file on standard input. Standard error says in words why a file is refused.
#![tactic(auto)]

use circuit::FILE_LENGTH;
use std::io;
use streams::read_full;

// Room is fixed, since nothing is allocated: one byte more than a file has is enough to tell an input that is too long.
fn main(rt: HostRuntime) -> io::Result<()> {
    let mut bytes = [0u8; FILE_LENGTH + 1];
    let count = read_full(&mut rt.reader(), &mut bytes)?;
    let mut text = [0u8; listing::ROOM];
    let listed = listing::list(&bytes[..count], &mut text);
    rt.write_all(&text[..listed.length])?;
    if count == 0 {
        return eprintln!(rt; "usage: list < FILE, where FILE is a circuit file");
    }
    match listed.answer {
        Ok(()) => Ok(()),
        Err(refusal) => {
            let words = words::explain(Err(refusal));
            eprint!(rt; "list: {words}")
        }
    }
}
