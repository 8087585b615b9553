// Reading and writing for the programs, over std: a failure is told, and never taken for the end
// of the input. What the system reads and writes no contract can say; what is proved is that no byte
// outside the room is counted. Nothing is refused, and no function has a `requires`. A failure to do with
// a named file is said on standard error here.
#![tactic(auto)]

ghost use Rattle.std.specs.Prelude.{◌≡◌, ◌≤◌, length};
ghost use Rattle.std.specs.Io.{ReadsAtMost};
ghost use Rattle.program_files.specs.Input.{InRoom};

use std::env::Env;
use std::fs::{self, File, OpenOptions};
use std::io::{self, ErrorKind, Read, Write};
use std::str;

// How often in a row a read may be interrupted by a signal before it counts as failed: a program has to
// end.
const INTERRUPTED_MOST: u32 = 1000000;

// Bytes of a word of the program's that is put to use: as many as the system's longest name of a file and its end.
const WORD_MOST: usize = 4096;

// One read, tried again where a signal interrupts it before it has moved a byte.
fn read_some<R: Read>(from: &mut R, room: &mut [u8]) -> io::Result<usize>
    ensures { ReadsAtMost result room.new }
{
    for _ in 0..INTERRUPTED_MOST {
        match from.read(room) {
            Err(error) if error.kind() == ErrorKind::Interrupted => {}
            result => return result,
        }
    }
    Err(io::Error::from(ErrorKind::Interrupted))
}

// Reads until the room is full or the input ends: so many bytes at the start of the room. After an error what the room
// holds counts for nothing.
pub fn read_all<R: Read>(from: &mut R, room: &mut [u8]) -> io::Result<usize>
    ensures { InRoom result room.new }
{
    let mut done: usize = 0;
    while done < room.len() {
        let more = read_some(from, &mut room[done..])?;
        if more == 0 {
            break;
        }
        done += more;
    }
    Ok(done)
}

// Zeros for one of the program's words.
pub fn word_room() -> [u8; WORD_MOST]
    ensures { 4096 ≡ length result }
{
    [0; WORD_MOST]
}

// Puts one of the program's words at the start of the room, and tells its length: 0 where there is no such word, or the
// room is too small for it.
pub fn word_in(rt: &HostRuntime, word: usize, room: &mut [u8]) -> usize
    ensures { result ≤ length room.new }
{
    rt.arg(word, room).unwrap_or(0)
}

// The words of an error's text, without the number that std puts behind them.
fn words_of(text: &str) -> &str {
    match text.split_once(" (os error ") {
        Some((words, _)) => words,
        None => text,
    }
}

// Says on standard error what failed, and why.
pub fn fail(rt: &HostRuntime, what: &[u8], error: io::Error) {
    let _ = rt.stderr().lock().write_all(what);
    let _ = match error.to_string(rt.alloc()) {
        Ok(text) => rt.eprintln(format_args!(": {}", words_of(text.as_str()))),
        Err(_) => rt.eprintln(format_args!(": {error}")),
    };
}

// A name as std takes it, which is UTF-8 alone.
fn path_of(name: &[u8]) -> io::Result<&str> {
    match str::from_utf8(name) {
        Ok(path) => Ok(path),
        Err(_) => Err(io::Error::from(ErrorKind::InvalidFilename)),
    }
}

// Reads the file of this name.
fn read_file(rt: &HostRuntime, name: &[u8], room: &mut [u8]) -> io::Result<usize>
    ensures { InRoom result room.new }
{
    let mut file = File::open(rt, path_of(name)?)?;
    read_all(&mut file, room)
}

// The file that one of the program's words names, whole or as many bytes as the room has. An error has been said.
pub fn read_named(rt: &HostRuntime, word: usize, room: &mut [u8]) -> io::Result<usize>
    ensures { InRoom result room.new }
{
    let mut name = word_room();
    let length = word_in(rt, word, &mut name);
    let input = read_file(rt, &name[..length], room);
    if let Err(error) = input {
        fail(rt, &name[..length], error);
    }
    input
}

// Writes the bytes to a file that was just made, and closes it.
fn fill(mut file: File, bytes: &[u8]) -> io::Result<()> {
    file.write_all(bytes)?;
    file.sync_all()
}

// Makes the file of this name, with these bytes.
fn make(rt: &HostRuntime, name: &[u8], bytes: &[u8]) -> io::Result<()> {
    let path = path_of(name)?;
    let file = OpenOptions::new()
        .write(true)
        .create_new(true)
        .open(rt, path)?;
    let made = fill(file, bytes);
    if made.is_err() {
        let _ = fs::remove_file(rt, path);
    }
    made
}

// Makes the file that one of the program's words names, with these bytes, and tells whether it could. A file
// that is there is never overwritten, and a failed write leaves no file.
pub fn make_named(rt: &HostRuntime, word: usize, bytes: &[u8]) -> bool {
    let mut name = word_room();
    let length = word_in(rt, word, &mut name);
    match make(rt, &name[..length], bytes) {
        Ok(()) => true,
        Err(error) => {
            fail(rt, &name[..length], error);
            false
        }
    }
}
