//! What no clause says: that calls succeed where there is memory, and what the real folder and standard output do.

ghost use Rattle.std.specs.Prelude.{◌≡◌, IfOk, vec_len};

mod by_bytes;

use crate::folder::{ReadStop, append_all};
use crate::*;
use by_bytes::{ByteFile, ByteOutput, ByteSource};
use std::alloc::{AllocError, Global};
use std::process::Abort;
use std::test::Fail;
use std::{fs, io};

/// The name of a file to load, and the answer.
type LoadRow = (&'static str, Loaded);

/// Asserts what each load answers, and what all of them have appended to a byte of 9.
fn expect_loads<L: Library>(
    rt: &(impl Abort + AllocGlobal),
    library: &mut L,
    rows: &[LoadRow],
    appended: &[u8],
) -> Result<(), AllocError> {
    let mut into = vec![in rt.alloc(); 9u8]?;
    for &(name, wanted) in rows {
        assert!(rt; library.load(name, &mut into) == wanted, "{name:?}");
    }
    assert!(rt; into.as_slice() == appended);
    Ok(())
}

fn one_name(alloc: Global) -> Result<Vec<String>, AllocError>
    ensures { IfOk result (λ names. vec_len names ≡ 1) }
{
    Ok(vec![in alloc; String::from_str(alloc, "first.mp4")?]?)
}

fn one_content(alloc: Global) -> Result<Vec<Vec<u8>>, AllocError>
    ensures { IfOk result (λ contents. vec_len contents ≡ 1) }
{
    Ok(vec![in alloc; b"12".as_slice().to_vec(alloc)?]?)
}

/// A library of one file, whose second load fails.
const FROM_MEMORY: [LoadRow; 3] = [
    ("first.mp4", Loaded::Done),
    ("first.mp4", Loaded::Failed),
    ("second.mp4", Loaded::NoFile),
];

#[test]
fn loads_from_memory(rt: HostRuntime) -> Result<(), Fail> {
    let alloc = rt.alloc();
    let failing = vec![in alloc; 2u64]?;
    let mut library = MemoryLibrary::new(alloc, one_name(alloc)?, one_content(alloc)?, failing);
    expect_loads(&rt, &mut library, &FROM_MEMORY, b"\x0912")?;
    Ok(())
}

/// A library of one file, of which no load fails.
const FROM_SURE_MEMORY: [LoadRow; 2] = [("first.mp4", Loaded::Done), ("", Loaded::NoFile)];

#[test]
fn loads_surely_from_memory(rt: HostRuntime) -> Result<(), Fail> {
    let alloc = rt.alloc();
    let mut library = SureLibrary::new(alloc, one_name(alloc)?, one_content(alloc)?);
    expect_loads(&rt, &mut library, &FROM_SURE_MEMORY, b"\x0912")?;
    Ok(())
}

/// A folder with three files: one of three bytes, one that is empty, and one that is longer than what is read at once.
const FROM_A_FOLDER: [LoadRow; 8] = [
    ("loads_from_a_folder/file", Loaded::Done),
    ("loads_from_a_folder/empty", Loaded::Done),
    ("loads_from_a_folder/long", Loaded::Done),
    ("loads_from_a_folder/other", Loaded::NoFile),
    ("", Loaded::NoFile),
    ("loads_from_a_folder", Loaded::Failed),
    ("loads_from_a_folder/file/file", Loaded::Failed),
    ("loads_from_a_folder/file\0", Loaded::Failed),
];

/// The bytes of the long file.
static LONG: [u8; 5000] = [7; 5000];

#[test]
fn loads_from_a_folder(rt: HostRuntime) -> Result<(), Fail> {
    fs::create_dir(&rt, "loads_from_a_folder")?;
    fs::write(&rt, "loads_from_a_folder/file", b"abc")?;
    fs::write(&rt, "loads_from_a_folder/empty", b"")?;
    fs::write(&rt, "loads_from_a_folder/long", LONG.as_slice())?;
    let mut library = FolderLibrary::new(SystemFiles(rt));
    let mut appended = b"\x09abc".as_slice().to_vec(rt.alloc())?;
    appended.extend_from_slice(&LONG)?;
    expect_loads(&rt, &mut library, &FROM_A_FOLDER, &appended)?;
    fs::remove_dir_all(&rt, "loads_from_a_folder")?;
    Ok(())
}

/// The bytes of a file, whether it breaks off behind them, and how many reads are interrupted.
type FileRow = (&'static [u8], bool, u64);

fn file_of(row: &FileRow) -> ByteFile<'static> {
    ByteFile {
        bytes: row.0,
        broken: row.1,
        interrupts: row.2,
        was_interrupted: false,
    }
}

/// A file, what two loads answer, of its name and of another, and what is appended to a byte of 9.
type SourceRow = (FileRow, [Loaded; 2], &'static [u8]);

const FROM_A_SOURCE: [SourceRow; 5] = [
    (
        (b"abc", false, 0),
        [Loaded::Done, Loaded::NoFile],
        b"\x09abc",
    ),
    (
        (b"abc", false, 9),
        [Loaded::Done, Loaded::NoFile],
        b"\x09abc",
    ),
    ((b"", false, 1), [Loaded::Done, Loaded::NoFile], b"\x09"),
    ((b"abc", true, 2), [Loaded::Failed, Loaded::NoFile], b"\x09"),
    ((b"", true, 0), [Loaded::Failed, Loaded::NoFile], b"\x09"),
];

/// Bytes that come one at a time, with reads between them that are interrupted, up to the end or to a read that fails.
#[test]
fn loads_a_byte_at_a_time(rt: HostRuntime) -> Result<(), Fail> {
    for (file, wanted, appended) in &FROM_A_SOURCE {
        let mut library = FolderLibrary::new(ByteSource {
            name: "file",
            file: file_of(file),
            opens: 0,
        });
        let rows = [("file", wanted[0]), ("other", wanted[1])];
        expect_loads(&rt, &mut library, &rows, appended)?;
    }
    Ok(())
}

/// How many bytes a file may have, what comes of reading it, and what is appended to a byte of 9.
type ReadRow = (usize, Result<(), ReadStop>, &'static [u8]);

/// Whether this comes of reading a file.
fn is_read<F: OpenFile>(alloc: Global, file: &mut F, row: &ReadRow) -> Result<bool, AllocError> {
    let mut into = vec![in alloc; 9u8]?;
    let found = append_all(file, &mut into, row.0);
    Ok(found == row.1 && into.as_slice() == row.2)
}

const TOO_LONG: Result<(), ReadStop> = Err(ReadStop::TooLong);

const BROKEN: Result<(), ReadStop> = Err(ReadStop::Reader(io::ErrorKind::BrokenPipe));

/// Files, and what comes of reading each.
const UP_TO_THE_MOST: [(FileRow, ReadRow); 6] = [
    ((b"abcde", false, 2), (5, Ok(()), b"\x09abcde")),
    ((b"abcde", false, 0), (4, TOO_LONG, b"\x09abcd")),
    ((b"a", false, 0), (0, TOO_LONG, b"\x09")),
    ((b"", false, 0), (0, Ok(()), b"\x09")),
    ((b"ab", true, 3), (9, BROKEN, b"\x09ab")),
    ((b"ab", true, 3), (1, TOO_LONG, b"\x09a")),
];

/// A file of as many bytes as it may have is read, and one of a byte more is not.
#[test]
fn reads_up_to_the_most(rt: HostRuntime) -> Result<(), Fail> {
    for (file, row) in &UP_TO_THE_MOST {
        let mut file = file_of(file);
        assert!(rt; is_read(rt.alloc(), &mut file, row)?, "{row:?}");
    }
    Ok(())
}

/// Bytes to put, and the answer.
type PutRow = (&'static [u8], Put);

/// Asserts what each put answers.
fn expect_puts<S: Sink>(rt: &impl Abort, sink: &mut S, rows: &[PutRow]) {
    for &(bytes, wanted) in rows {
        assert!(rt; sink.put(bytes) == wanted, "{bytes:?}");
    }
}

/// Puts of which the second fails behind a byte, and the third behind its last byte.
const INTO_MEMORY: [PutRow; 4] = [
    (b"ab", Put::Done),
    (b"cd", Put::Failed),
    (b"ef", Put::Failed),
    (b"gh", Put::Done),
];

#[test]
fn puts_into_memory(rt: HostRuntime) -> Result<(), Fail> {
    let mut sink = MemorySink::new(rt.alloc(), vec![in rt.alloc(); (2u64, 1u64), (3, 9)]?);
    expect_puts(&rt, &mut sink, &INTO_MEMORY);
    let mut sure = SureSink::new(rt.alloc());
    expect_puts(&rt, &mut sure, &[(b"ab", Put::Done)]);
    assert!(rt; (sink.written(), sure.written()) == (b"abcefgh".as_slice(), b"ab".as_slice()));
    Ok(())
}

#[test]
fn puts_on_standard_output(rt: HostRuntime) {
    let mut sink = StdoutSink::new(SystemOutput(rt));
    let rows = [(b"a line\n".as_slice(), Put::Done), (b"", Put::Done)];
    expect_puts(&rt, &mut sink, &rows);
}

/// Puts on an output that takes ten bytes.
const OF_TEN_BYTES: [PutRow; 3] = [
    (b"abcde", Put::Done),
    (b"fghij", Put::Done),
    (b"k", Put::Failed),
];

/// The same, where no flush succeeds.
const UNFLUSHED: [PutRow; 2] = [(b"abc", Put::Failed), (b"", Put::Failed)];

/// An output that takes ten bytes, with so many writes between them that are interrupted.
fn ten_bytes(alloc: Global, interrupts: u64, flush_fails: bool) -> ByteOutput {
    ByteOutput {
        taken: Vec::new(alloc),
        room: 10,
        flushed: false,
        flush_fails,
        faults: 0,
        interrupts,
        was_interrupted: false,
    }
}

#[test]
fn puts_a_byte_at_a_time(rt: HostRuntime) {
    for interrupts in [0u64, 1, 7, 99] {
        let mut sink = StdoutSink::new(ten_bytes(rt.alloc(), interrupts, false));
        expect_puts(&rt, &mut sink, &OF_TEN_BYTES);
        let output = sink.output();
        assert!(rt; output.taken.as_slice() == b"abcdefghij".as_slice() && output.flushed);
    }
    let mut sink = StdoutSink::new(ten_bytes(rt.alloc(), 1, true));
    expect_puts(&rt, &mut sink, &UNFLUSHED);
}
