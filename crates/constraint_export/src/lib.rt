// The constraint test for programs in C or Rust: it takes slices and answers by a number.
#![tactic(auto)]

ghost use Rattle.std.specs.Prelude.{◌≡◌, ◌≤◌, ◌<◌, length};
ghost use Rattle.constraint_export.specs.Export.{most_counted, atom_from, Gathered, Found, code, noted, Tells, TellsNumbers};

use basis::{Atom, Numbers, Refused};
use slices::at_or;

fn atom_at(places: &[u8], bounds: &[i32], k: usize) -> Atom
    requires { k < most_counted }
    ensures { result ≡ atom_from places.now bounds.now k }
{
    Atom {
        p: at_or(places, k + k, 0),
        q: at_or(places, k + k + 1, 0),
        c: at_or(bounds, k, 0),
    }
}

// As many atoms as there are slots for, from their places, p and q by turns, and their bounds c; blank past the slices' ends.
fn gather(places: &[u8], bounds: &[i32], atoms: &mut [Atom])
    requires { length atoms.old ≤ most_counted }
    ensures { Gathered (length atoms.old) places.now bounds.now atoms.new }
{
    for (k, a) in atoms.iter_mut().enumerate() {
        *a = atom_at(places, bounds, k);
    }
}

// What the test answers to the first `count` atoms: it refuses more than it takes.
fn found(
    constants: u8,
    count: u8,
    places: &[u8],
    bounds: &[i32],
) -> Result<Option<Numbers>, Refused<u8>>
    ensures { Found constants count places.now bounds.now result }
{
    let mut atoms = [Atom { p: 0, q: 0, c: 0 }; u8::MAX as usize];
    let atoms = &mut atoms[..usize::from(count)];
    gather(places, bounds, atoms);
    constraint::possible(constants, atoms)
}

// 1 for yes, 0 for no, and for a refusal 256 times its number and its place.
fn coded(answer: Result<Option<Numbers>, Refused<u8>>) -> u32
    ensures { result ≡ code answer }
{
    match answer {
        Ok(Some(_)) => 1,
        Ok(None) => 0,
        Err(refused) => u32::from(u8::from(refused.refusal)) * 256 + u32::from(refused.place),
    }
}

// The constraint test.
#[unsafe(no_mangle)]
pub extern "C" fn drf_possible(constants: u8, count: u8, places: &[u8], bounds: &[i32]) -> u32
    ensures { Tells constants count places.now bounds.now result }
{
    coded(found(constants, count, places, bounds))
}

// The constants' numbers in front of the slice, if it has room for them
fn note(numbers: &[i32], out: &mut [i32])
    ensures { out.new ≡ noted numbers.now out.old }
{
    let n = numbers.len();
    if n <= out.len() {
        out[..n].copy_from_slice(numbers);
    }
}

// The constraint test, with the numbers behind a yes in front of the other slice
#[unsafe(no_mangle)]
pub extern "C" fn drf_numbers(
    constants: u8,
    count: u8,
    places: &[u8],
    bounds: &[i32],
    numbers: &mut [i32],
) -> u32
    ensures { TellsNumbers constants count places.now bounds.now numbers.old numbers.new result }
{
    let answer = found(constants, count, places, bounds);
    if let Ok(Some(behind)) = &answer {
        note(&behind[..usize::from(constants)], numbers);
    }
    coded(answer)
}
