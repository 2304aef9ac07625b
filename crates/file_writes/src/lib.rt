// Files that are written whole. Under its name a file has what it had before or all of the new bytes, at every moment,
// also where the write fails or the program dies: the bytes go to a new file beside it, which then takes its name.
// It has the owner and the mode of a new file. A device and a pipe have no such name to take, and are
// written to as they are; so are the program's own standard output and error, also where these are files.
// Touches files, and only reads the slices that it is lent. Used by the program `telgouin`.
#![tactic(auto)]

ghost use Rattle.std.specs.Prelude.{◌≤◌, length};
ghost use Rattle.io.specs.Counts.{IsPrefixLen};

use std::fs;
use std::fs::{File, Metadata, OpenOptions};
use std::io::{ErrorKind, Seek, SeekFrom, Write};
use std::os::fd::AsRawFd;
use std::os::unix::fs::MetadataExt;
use std::random::RandomSource;
use std::rt::Files;

// The program's own outputs.
const STDOUT: i32 = 1;

const STDERR: i32 = 2;

// How many random letters the name of the new file has.
const LETTERS: usize = 8;

// ---- names

// How many bytes of a path are its folder, with the last `/`; 0 where it has none.
fn folder_of(path: &[u8]) -> usize
    ensures { IsPrefixLen result path.now }
{
    path.iter()
        .rposition(|letter| *letter == b'/')
        .map_or(0, |last| last + 1)
}

// Puts text behind the first `at` bytes of a path, as far as there is room. Returns how many bytes the path has then;
// one that is full leads to no file.
fn put_behind(path: &mut [u8], at: usize, text: &[u8]) -> usize
    requires { at ≤ length path.old }
    ensures { IsPrefixLen result path.new }
{
    let count = text.len().min(path.len() - at);
    path[at..at + count].copy_from_slice(&text[..count]);
    at + count
}

// A letter from `a` to `z` for a byte.
fn letter_of(byte: u8) -> u8 {
    b'a' + byte % 26
}

// Letters at random, so that no two programs make the same file.
fn random_letters<R: RandomSource>(rt: &R) -> [u8; LETTERS] {
    let mut letters = [0u8; LETTERS];
    let _ = rt.fill_bytes(&mut letters);
    for letter in letters.iter_mut() {
        *letter = letter_of(*letter);
    }
    letters
}

// Writes the path of a new file in the folder of the given one to `beside`. Returns how many bytes it has.
fn name_beside<R: RandomSource>(rt: &R, path: &[u8], beside: &mut [u8]) -> usize
    ensures { IsPrefixLen result beside.new }
{
    let letters = random_letters(rt);
    let folder = folder_of(path);
    let end = put_behind(beside, 0, &path[..folder]);
    let dot = put_behind(beside, end, b".telgouin-");
    put_behind(beside, dot, &letters)
}

// A path as the system takes it, as text; none where the bytes are no text.
fn text_of(path: &[u8]) -> Option<&str> {
    std::str::from_utf8(path).ok()
}

// An open file's descriptor as a number to print. Programs have few open files, so that it is small;
// one below 0 gives 0.
fn number_of(fd: i32) -> u64 {
    let numbers = io::buffer();
    io::count(fd as isize, &numbers) as u64
}

// Writes the path under which the system links to an open file to `place`. Returns how many bytes it has.
fn place_of(fd: i32, place: &mut [u8]) -> usize
    ensures { IsPrefixLen result place.new }
{
    let mut digits = [0u8; 20];
    let count = io::decimal(number_of(fd), &mut digits);
    let end = put_behind(place, 0, b"/proc/self/fd/");
    put_behind(place, end, &digits[..count])
}

// Writes the name of an open file itself, which links may lead to, to `name`. Returns how many bytes it has,
// 0 where the system does not say, or says none that is text: no name is empty, and callers ask that of the slice.
fn name_of<R: Files + Alloc>(rt: &R, fd: i32, name: &mut [u8]) -> usize
    ensures { IsPrefixLen result name.new }
{
    let mut place = io::buffer();
    let count = place_of(fd, &mut place);
    match text_of(&place[..count]) {
        None => 0,
        Some(place) => match fs::read_link(rt, place) {
            Err(_) => 0,
            Ok(found) => put_behind(name, 0, found.as_str().as_bytes()),
        },
    }
}

// Whether a path is that of a link.
fn is_link<R: Files>(rt: &R, path: &str) -> bool {
    match fs::symlink_metadata(rt, path) {
        Err(_) => false,
        Ok(found) => found.is_symlink(),
    }
}

// ---- writing

// Opens a file that is there, to write behind what it has.
fn open_append<R: Files<File = File>>(rt: &R, path: &str) -> std::io::Result<File> {
    OpenOptions::new().append(true).open(rt, path)
}

// Writes all bytes to an open file. Returns whether that succeeded. The file is closed.
fn write_through(mut file: File, bytes: &[u8]) -> bool {
    file.write_all(bytes).is_ok()
}

// Writes all bytes to an open file and has the system put them on the disk. Returns whether all that succeeded.
// The file is closed.
fn write_down(mut file: File, bytes: &[u8]) -> bool {
    let is_written = file.write_all(bytes).is_ok();
    let is_down = file.sync_all().is_ok();
    is_written && is_down
}

// Makes a new file of that name, which takes the one of `path` once all is written. Returns whether that succeeded;
// if not, the new file is removed.
fn replace_by<R: Files<File = File>>(rt: &R, beside: &str, path: &str, bytes: &[u8]) -> bool {
    let Ok(file) = OpenOptions::new()
        .write(true)
        .create_new(true)
        .open(rt, beside)
    else {
        return false;
    };
    if write_down(file, bytes) && fs::rename(rt, beside, path).is_ok() {
        return true;
    }
    let _ = fs::remove_file(rt, beside);
    false
}

// Makes a new file beside the one at `path`, which takes its name once all is written. Returns whether that succeeded;
// if not, the new file is removed.
fn replace<R: Files<File = File> + RandomSource>(rt: &R, path: &str, bytes: &[u8]) -> bool {
    let mut beside = io::buffer();
    let length = name_beside(rt, path.as_bytes(), &mut beside);
    match text_of(&beside[..length]) {
        None => false,
        Some(name) => replace_by(rt, name, path, bytes),
    }
}

// Whether an open file is a regular one: these alone can be given a length, here the one that they have.
fn is_regular(file: &mut File) -> bool {
    match file.seek(SeekFrom::End(0)) {
        Err(_) => false,
        Ok(length) => match file.set_len(length) {
            Ok(()) => true,
            Err(why) => why.kind() != ErrorKind::InvalidInput,
        },
    }
}

// Whether a name is the one that the system has for an open file.
fn is_name_of<R: Files + Alloc>(rt: &R, name: &[u8], fd: i32) -> bool {
    let mut other = io::buffer();
    let length = name_of(rt, fd, &mut other);
    if length == 0 {
        return false;
    }
    name == &other[..length]
}

// Whether two files are one, by their numbers on one device.
fn are_same(one: &Metadata, other: &Metadata) -> bool {
    one.dev() == other.dev() && one.ino() == other.ino()
}

// Whether an open file is the one that a descriptor leads to.
fn is_file_of<R: Files>(rt: &R, file: &File, fd: i32) -> bool {
    let mut place = io::buffer();
    let count = place_of(fd, &mut place);
    match text_of(&place[..count]) {
        None => false,
        Some(place) => match (file.metadata(), fs::metadata(rt, place)) {
            (Ok(one), Ok(other)) => are_same(&one, &other),
            _ => false,
        },
    }
}

// Whether one of the program's outputs goes to an open file: by the name that the system has for both, or where it
// says none that is text by the file itself.
fn goes_to<R: Files + Alloc>(rt: &R, output: i32, file: &File, name: &[u8]) -> bool {
    if name.is_empty() {
        return is_file_of(rt, file, output);
    }
    is_name_of(rt, name, output)
}

// Which of the program's own outputs goes to an open file, which has that name: standard output or standard
// error, if one does.
fn output_to<R: Files + Alloc>(rt: &R, file: &File, name: &[u8]) -> Option<i32> {
    if goes_to(rt, STDOUT, file, name) {
        Some(STDOUT)
    } else if goes_to(rt, STDERR, file, name) {
        Some(STDERR)
    } else {
        None
    }
}

// Whether a name leads to a file that may be written. The name of an open file does not once the file was removed.
fn is_there<R: Files<File = File>>(rt: &R, name: &str) -> bool {
    open_append(rt, name).is_ok()
}

// Replaces the file of that name, if one is there. Returns whether that succeeded.
fn replace_there<R: Files<File = File> + RandomSource>(rt: &R, name: &[u8], bytes: &[u8]) -> bool {
    if let Some(name) = text_of(name) {
        if is_there(rt, name) {
            return replace(rt, name, bytes);
        }
    }
    false
}

// Closes an open file and replaces it: by the path that led to it, or where that is a link by its own name,
// if the system has one. Where the program's own output goes to that file, the bytes are written behind it,
// so that none of it is lost. Returns whether all is written.
fn replace_open<R: Files<File = File> + RandomSource + Alloc>(
    rt: &R,
    file: File,
    path: &str,
    bytes: &[u8],
) -> bool {
    let mut name = io::buffer();
    let length = name_of(rt, file.as_raw_fd(), &mut name);
    let output = output_to(rt, &file, &name[..length]);
    drop(file);
    if let Some(output) = output {
        return io::write_all(output, bytes);
    }
    if !is_link(rt, path) {
        return replace(rt, path, bytes);
    }
    replace_there(rt, &name[..length], bytes)
}

// The same of a path that is text.
fn write_named<R: Files<File = File> + RandomSource + Alloc>(
    rt: &R,
    path: &str,
    bytes: &[u8],
) -> bool {
    match open_append(rt, path) {
        Err(why) => {
            why.kind() == ErrorKind::NotFound && !is_link(rt, path) && replace(rt, path, bytes)
        }
        Ok(mut file) => {
            if is_regular(&mut file) {
                return replace_open(rt, file, path, bytes);
            }
            write_through(file, bytes)
        }
    }
}

// Writes a file. Returns whether all of it is there now; if not, a regular file has what it had before. A file
// that is there is written only where it may be, and a link stays as it is: one that leads to no file is refused.
// So is a path that is no UTF-8, since std opens files by text alone. Which bytes then are in the file no contract
// can say.
pub fn write_file<R: Files<File = File> + RandomSource + Alloc>(
    rt: &R,
    path: &[u8],
    bytes: &[u8],
) -> bool {
    match text_of(path) {
        None => false,
        Some(path) => write_named(rt, path, bytes),
    }
}
