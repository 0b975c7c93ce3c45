// Judges and inspects packed files, and judges whole files. Standard input has packed files that are judged; the first argument names a file
// that has packed files that are inspected, the others name the whole files. Standard output has each file's name and its listing; of a file
// that is inspected besides the number and place of the last answer, and the final state.
// Packed files stand one after the other: the length of a name in a byte, the name, the length of the file in two bytes, and the file.
// The checker packs the damages and runs of `checker/cases`.
#![tactic(auto)]

ghost use Rattle.std.specs.Prelude.{◌≤◌, length};

use judging::{MOST_INSPECTION, MOST_LISTING, MOST_READ, Written};
use slices::at_or;
use std::fs::File;
use std::io;
use std::io::ErrorKind;
use std::str::from_utf8;
use streams::{read_full, word_at};

// Packed files are read no further.
const MOST_PACKED: usize = 65536;

// No path is longer.
const MOST_PATH: usize = 4096;

// The end of a line, and the listing
fn print_listing(rt: HostRuntime, file: &[u8]) {
    let _ = rt.write_all(b"\n");
    let mut out = [0u8; MOST_LISTING];
    if let Written::Bytes { count, .. } = judging::judge(file, &mut out) {
        let _ = rt.write_all(&out[..count.min(MOST_LISTING)]);
    }
}

// ---- packed files

// " number place" and the end of the line, the listing and the final state
fn print_inspection(rt: HostRuntime, file: &[u8]) {
    let mut out = [0u8; MOST_INSPECTION];
    if let Written::Bytes {
        count,
        number,
        place,
    } = judging::inspect(file, &mut out)
    {
        let _ = println!(rt; " {number} {place}");
        let _ = rt.write_all(&out[..count.min(MOST_INSPECTION)]);
    }
}

// The first `n` bytes, or as many as there are, and those after them
fn parted(s: &[u8], n: usize) -> (&[u8], &[u8])
    ensures { length result.1.now ≤ length s.now }
{
    s.split_at(n.min(s.len()))
}

// A packed file whose name has so many bytes, printed behind its name: the bytes after it
fn print_packed(rt: HostRuntime, name: u8, s: &[u8], print: fn(HostRuntime, &[u8])) -> &[u8]
    requires { IsAlwaysCallable print }
    ensures { length result.now ≤ length s.now }
{
    let (name, s) = parted(s, usize::from(name));
    let _ = rt.write_all(name);
    let (size, s) = parted(s, 2);
    let n = usize::from(at_or(size, 0, 0)) + 256 * usize::from(at_or(size, 1, 0));
    let (file, rest) = parted(s, n);
    print(rt, file);
    rest
}

fn print_all_packed(rt: HostRuntime, s: &[u8], print: fn(HostRuntime, &[u8]))
    requires { IsAlwaysCallable print }
{
    let mut rest = s;
    while let Some((name, more)) = rest.split_first() {
        rest = print_packed(rt, *name, more, print);
    }
}

// ---- files

fn open(rt: HostRuntime, path: &[u8]) -> io::Result<File> {
    match from_utf8(path) {
        Ok(name) => File::open(&rt, name),
        Err(_) => Err(io::Error::from(ErrorKind::InvalidFilename)),
    }
}

// As much of a file as there is room for. Of one that can't be opened standard error has a line.
fn read_file(rt: HostRuntime, path: &[u8], file: &mut [u8]) -> usize
    ensures { result ≤ length file.new }
{
    match open(rt, path) {
        Ok(mut opened) => read_full(&mut opened, file).unwrap_or_else(|n| n),
        Err(error) => {
            let _ = rt.stderr().write_all(path);
            let _ = eprintln!(rt; ": {error}");
            0
        }
    }
}

// The file that an argument names
fn read_argument(rt: HostRuntime, k: usize, file: &mut [u8]) -> usize
    ensures { result ≤ length file.new }
{
    let mut path = [0u8; MOST_PATH];
    let n = word_at(rt, k, &mut path).unwrap_or(0);
    read_file(rt, &path[..n], file)
}

fn print_file(rt: HostRuntime, path: &[u8]) {
    let _ = rt.write_all(path);
    let mut file = [0u8; MOST_READ];
    let count = read_file(rt, path, &mut file);
    print_listing(rt, &file[..count]);
}

// The files that the arguments name from the second on
fn print_files(rt: HostRuntime) {
    let mut path = [0u8; MOST_PATH];
    for k in 2..usize::MAX {
        let Some(n) = word_at(rt, k, &mut path) else {
            break;
        };
        print_file(rt, &path[..n]);
    }
}

fn main(rt: HostRuntime) {
    let mut judged = [0u8; MOST_PACKED];
    let n = read_full(&mut rt.stdin(), &mut judged).unwrap_or_else(|n| n);
    print_all_packed(rt, &judged[..n], print_listing);
    let mut inspected = [0u8; MOST_READ];
    let n = read_argument(rt, 1, &mut inspected);
    print_all_packed(rt, &inspected[..n], print_inspection);
    print_files(rt);
}
