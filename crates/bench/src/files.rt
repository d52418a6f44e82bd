// The circuit file: case 11, a file written and read back, and files that are spoiled. A byte is one up, first with its block's check as it
// was, then with the check made right, so that the byte itself is what is wrong.
ghost use Rattle.std.specs.Prelude.{◌<◌};
ghost use Rattle.circuit.specs.File.{file_length};

use crate::make;
use crate::make::case_1;
use crate::show::Told;
use crate::tally::{Answer, Bench};
use circuit::{BLOCK_LENGTH, CHECK_PLACE, FILE_LENGTH, Record, Refusal};
use std::io;

type File = [u8; FILE_LENGTH];

// Where block 2 stands, rows 1 to 3 in block 1, and column 3 in block 2.
const BLOCK_2: usize = 2 * BLOCK_LENGTH;

const ROW_1: usize = 16;

const ROW_2: usize = 32;

const ROW_3: usize = 48;

const COLUMN_3: usize = 24;

pub fn cases(bench: &mut Bench) -> io::Result<()> {
    let file = written(bench, "file of case 1", &case_1())?;
    read(bench, "file of case 1, read back", &file, Ok(()))?;
    written_again(bench, "file of case 1", &file)?;
    second_version(bench)?;
    reversed(bench)?;
    checks(bench, &file)?;
    spoiled(bench, &file)?;
    unused(bench, &file)?;
    refused_writes(bench)
}

fn written(bench: &mut Bench, name: &str, r: &Record) -> io::Result<File> {
    let mut file = [0; FILE_LENGTH];
    let answer = file::write(r, &mut file);
    bench.case(
        name,
        format_args!(", written{}", Told(answer)),
        answer == Ok(()),
    )?;
    Ok(file)
}

fn read(bench: &mut Bench, label: &str, s: &[u8], expected: Answer) -> io::Result<()> {
    bench.answered(label, file::read(s), expected)
}

// What reading hands back is written to the same bytes.
fn written_again(bench: &mut Bench, name: &str, file: &File) -> io::Result<()> {
    let mut again = [0; FILE_LENGTH];
    let answer = file::read(file).and_then(|r| file::write(&r, &mut again));
    bench.case(
        name,
        format_args!(", written again{}", Told(answer)),
        answer == Ok(()),
    )?;
    bench.case(name, ", written again: the same bytes", again == *file)
}

fn second_version(bench: &mut Bench) -> io::Result<()> {
    let name = "file of case 1 in version 2";
    let r = Record {
        version: 2,
        ..case_1()
    };
    let file = written(bench, name, &r)?;
    written_again(bench, name, &file)
}

// With a resistor reversed, and then with a mark of 2 there.
fn reversed(bench: &mut Bench) -> io::Result<()> {
    let name = "file of case 1, its resistor reversed";
    let file = written(bench, name, &make::reversed(case_1(), 1))?;
    written_again(bench, name, &file)?;
    read(
        bench,
        "a mark of 2",
        &resealed(&file, 1, ROW_1 + 3),
        Err(Refusal::Form),
    )
}

// A block 2 of zeros, but for the lowest byte of its check.
fn cleared(mut file: File, check: u8) -> File {
    file[BLOCK_2..].fill(0);
    file[BLOCK_2 + CHECK_PLACE] = check;
    file
}

// Where the check is right, what is refused is that the columns do not rise.
fn checks(bench: &mut Bench, file: &File) -> io::Result<()> {
    read(
        bench,
        "case 11, a block 2 of zeros with check 2",
        &cleared(*file, 2),
        Err(Refusal::Check(2)),
    )?;
    read(
        bench,
        "case 11, a block 2 of zeros with check 3",
        &cleared(*file, 3),
        Err(Refusal::Curve(1)),
    )
}

// A little-endian number one up, modulo its range.
fn raise(number: &mut [u8]) {
    for byte in number {
        *byte = byte.wrapping_add(1);
        if *byte != 0 {
            return;
        }
    }
}

fn is_wrong_check(file: &File, at: usize) -> bool
    requires { at < file_length }
{
    let mut s = *file;
    s[at] = s[at].wrapping_add(1);
    let block = (at / BLOCK_LENGTH) as u8;
    file::read(&s).err() == Some(Refusal::Check(block))
}

// With steps of 17 bytes each place in a row and in a column is met.
fn spoiled(bench: &mut Bench, file: &File) -> io::Result<()> {
    let all = (0..FILE_LENGTH)
        .step_by(17)
        .all(|at| is_wrong_check(file, at));
    bench.case(
        "file of case 1, each 17th byte in turn one up: refused 2 at its block",
        "",
        all,
    )
}

// The byte at this place of a block one up. That is its word up by a power of 256, and so is the check.
fn resealed(file: &File, block: usize, place: usize) -> File {
    let mut s = *file;
    if let Some(block) = s.chunks_mut(BLOCK_LENGTH).nth(block) {
        if let Some(byte) = block.get_mut(place) {
            *byte = byte.wrapping_add(1);
        }
        if let Some(check) = block.get_mut(CHECK_PLACE + place % 4..) {
            raise(check);
        }
    }
    s
}

// The version and a resistor's mark, and bytes that should be as they are: in the heading and behind it, in the rows, and in the columns.
fn unused(bench: &mut Bench, file: &File) -> io::Result<()> {
    const BYTES: [(&str, usize, usize, Answer); 18] = [
        ("version 2, in a file", 0, 0, Ok(())),
        ("version 257", 0, 1, Err(Refusal::Version)),
        ("curve kind 3", 0, 4, Err(Refusal::Form)),
        (
            "a byte between column count and rate",
            0,
            6,
            Err(Refusal::Form),
        ),
        (
            "a byte between rate and resistance",
            0,
            12,
            Err(Refusal::Form),
        ),
        (
            "a byte behind the heading",
            0,
            CHECK_PLACE - 1,
            Err(Refusal::Form),
        ),
        ("a first child of an input", 1, 1, Err(Refusal::Form)),
        (
            "a second child of a resistor",
            1,
            ROW_1 + 2,
            Err(Refusal::Form),
        ),
        ("the mark of a resistor", 1, ROW_1 + 3, Ok(())),
        ("microvolts of a resistor", 1, ROW_1 + 4, Err(Refusal::Form)),
        ("the mark of an adaptor", 1, ROW_2 + 3, Err(Refusal::Form)),
        ("a value of an adaptor", 1, ROW_2 + 15, Err(Refusal::Form)),
        ("the mark of a blank row", 1, ROW_3 + 3, Err(Refusal::Form)),
        ("a value of a blank row", 1, ROW_3 + 8, Err(Refusal::Form)),
        (
            "a resistor past the row count, in a file",
            1,
            ROW_3,
            Err(Refusal::Form),
        ),
        (
            "a byte behind the rows",
            1,
            BLOCK_LENGTH - 16,
            Err(Refusal::Form),
        ),
        (
            "a column past the column count, in a file",
            2,
            COLUMN_3,
            Err(Refusal::Form),
        ),
        (
            "a byte behind the columns",
            2,
            CHECK_PLACE - 1,
            Err(Refusal::Form),
        ),
    ];
    for (label, block, place, expected) in BYTES {
        read(bench, label, &resealed(file, block, place), expected)?;
    }
    Ok(())
}

// A write that is refused leaves the buffer.
fn refused_writes(bench: &mut Bench) -> io::Result<()> {
    let mut small = [7; FILE_LENGTH - 1];
    let answer = file::write(&case_1(), &mut small);
    bench.answered("written to 1535 bytes", answer, Err(Refusal::Length))?;
    read(bench, "1535 bytes read", &small, Err(Refusal::Length))?;
    let third = Record {
        version: 3,
        ..case_1()
    };
    let answer = file::write(&third, &mut small);
    bench.answered(
        "written with version 3 to 1535 bytes",
        answer,
        Err(Refusal::Length),
    )?;
    let before = [7; FILE_LENGTH];
    let mut after = before;
    let answer = file::write(&third, &mut after);
    bench.answered("written with version 3", answer, Err(Refusal::Version))?;
    let slow = Record {
        rate: 7999,
        ..case_1()
    };
    let answer = file::write(&slow, &mut after);
    bench.answered("written with rate 7999", answer, Err(Refusal::Rate))?;
    bench.case(
        "written with rate 7999: the buffer is as it was",
        "",
        after == before,
    )
}
