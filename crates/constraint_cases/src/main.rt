// Runs the constraint test on a table of cases: standard input has a case to a line, standard output its name and the answer,
// with a yes the constants' numbers behind it.
// A line is a name, the constants, the count, and then atoms, each as four numbers: how often, p, q, c. A line that starts with # is passed over.
#![tactic(auto)]

use basis::{Atom, MOST_CONSTANTS, MOST_TESTED, Numbers, Refused};
use lists::Held;
use streams::read_full;
use text::put_signed;

// The table is read no further.
const MOST_READ: usize = 65536;

// What the next number of a line is, with what was read of an atom
#[derive(Clone, Copy)]
enum Field {
    Constants,
    Count,
    Times,
    P { times: u8 },
    Q { times: u8, p: u8 },
    C { times: u8, p: u8, q: u8 },
}

// What is being read: the name, a number, or a line that is passed over
#[derive(Clone, Copy)]
enum Part {
    Name,
    Numbers,
    Comment,
}

// How far a line is read: what it has told, and of the number that is being read the sign and, from its first digit on, the size.
#[derive(Clone, Copy)]
struct Line {
    atoms: Held<Atom, MOST_TESTED>,
    constants: u8,
    count: u8,
    part: Part,
    field: Field,
    negative: bool,
    size: Option<u32>,
}

fn start() -> Line {
    Line {
        atoms: Held::new(Atom { p: 0, q: 0, c: 0 }),
        constants: 0,
        count: 0,
        part: Part::Name,
        field: Field::Constants,
        negative: false,
        size: None,
    }
}

// A number of 8 bits
fn small(size: u32) -> u8 {
    (size % 256) as u8
}

// A number with its sign
fn with_sign(size: u32, negative: bool) -> i32 {
    let size = (size % 2147483648) as i32;
    if negative { -size } else { size }
}

// The atom added as often as the line says, as far as there is room.
fn added(line: Line, a: Atom, times: u8) -> Line {
    let mut atoms = line.atoms;
    for _ in 0..times {
        if atoms.n < MOST_TESTED {
            atoms.push(a);
        }
    }
    Line { atoms, ..line }
}

// The number that was read goes to its field; after c the next atom begins.
fn told(line: Line, size: u32) -> Line {
    let n = small(size);
    let next = Line {
        negative: false,
        size: None,
        ..line
    };
    match line.field {
        Field::Constants => Line {
            constants: n,
            field: Field::Count,
            ..next
        },
        Field::Count => Line {
            count: n,
            field: Field::Times,
            ..next
        },
        Field::Times => Line {
            field: Field::P { times: n },
            ..next
        },
        Field::P { times } => Line {
            field: Field::Q { times, p: n },
            ..next
        },
        Field::Q { times, p } => Line {
            field: Field::C { times, p, q: n },
            ..next
        },
        Field::C { times, p, q } => {
            let c = with_sign(size, line.negative);
            let next = Line {
                field: Field::Times,
                ..next
            };
            added(next, Atom { p, q, c }, times)
        }
    }
}

// A word has ended: the name, or a number.
fn parted(line: Line) -> Line {
    match (line.part, line.size) {
        (Part::Name, _) => Line {
            part: Part::Numbers,
            ..line
        },
        (Part::Numbers, Some(size)) => told(line, size),
        _ => line,
    }
}

// A number with its sign, and a space before it.
fn print_number(rt: HostRuntime, n: i32) {
    let mut word = [b' '; 12];
    let end = put_signed(&mut word, 1, n);
    let _ = rt.write_all(&word[..end]);
}

fn print_numbers(rt: HostRuntime, numbers: &[i32]) {
    for number in numbers {
        print_number(rt, *number);
    }
}

fn print_finding(rt: HostRuntime, constants: u8, found: Result<Option<Numbers>, Refused<u8>>) {
    match found {
        Ok(Some(numbers)) => {
            let _ = rt.write_all(b" yes");
            print_numbers(rt, &numbers[..usize::from(constants).min(MOST_CONSTANTS)]);
        }
        Ok(None) => {
            let _ = rt.write_all(b" no");
        }
        Err(refused) => {
            let number = u8::from(refused.refusal);
            let place = refused.place;
            let _ = print!(rt; " refused {number} at {place}");
        }
    }
    let _ = rt.write_all(b"\n");
}

// What the test answers to the first `count` atoms of the line, blank past those that it lists; the test itself refuses more than it takes.
fn found_of(line: &Line) -> Result<Option<Numbers>, Refused<u8>> {
    let mut atoms = [Atom { p: 0, q: 0, c: 0 }; u8::MAX as usize];
    atoms[..MOST_TESTED].copy_from_slice(&line.atoms.at);
    constraint::possible(line.constants, &atoms[..usize::from(line.count)])
}

// One byte more of a number
fn read_digit(line: Line, byte: u8) -> Line {
    if byte == b'-' {
        return Line {
            negative: true,
            ..line
        };
    }
    let size = (line.size.unwrap_or(0) % 200000000) * 10 + u32::from(byte % 16);
    Line {
        size: Some(size),
        ..line
    }
}

// The line has ended: what the test says of it.
fn print_line(rt: HostRuntime, line: Line) {
    let whole = parted(line);
    print_finding(rt, whole.constants, found_of(&whole));
}

// One byte more of the line.
fn read_byte(rt: HostRuntime, line: Line, byte: u8) -> Line {
    match (line.part, byte) {
        (Part::Comment, b'\n') => start(),
        (Part::Comment, _) => line,
        (_, b'\n') => {
            print_line(rt, line);
            start()
        }
        (_, b' ') => parted(line),
        (Part::Numbers, _) => read_digit(line, byte),
        (Part::Name, b'#') => Line {
            part: Part::Comment,
            ..line
        },
        (Part::Name, _) => {
            let _ = rt.write_all(&[byte]);
            line
        }
    }
}

fn main(rt: HostRuntime) {
    let mut buffer = [0u8; MOST_READ];
    let n = read_full(&mut rt.stdin(), &mut buffer).unwrap_or_else(|n| n);
    let mut line = start();
    for byte in &buffer[..n] {
        line = read_byte(rt, line, *byte);
    }
}
