// Reading a run file from a lent slice of bytes. A reader is handed the place at which it begins; it gives a value and the place after it, or the
// refusal that ends the reading, with its place. The slice and the place stay two parameters: they are the two that each definition of a reading has,
// and a struct of both would be taken apart in each promise (`read result ≡ f s.now at`).
#![tactic(auto)]

ghost use Rattle.std.specs.Prelude.{◌≡◌, ◌≤◌, IfOk, length};
ghost use Rattle.basis.specs.Refusals.{number_of};
ghost use Rattle.runfile.specs.Readers.{field};
ghost use Rattle.runfile.specs.File.{little_endian, number, byte, count, within, second, constant, rule, letters, mark, version, most_steps, step_count};
ghost use Rattle.fields.specs.Views.{Described, ReadsEach, marked, passed, ranged, read, read_as, rule_read};

use basis::{MOST_C, Refusal, Refused, Rule, Version};
use lists::Held;

// "The number of steps (16 bits, at most 2,000)"
const MOST_STEPS: u32 = 2000;

// A value and the place after it; or a refusal and its place.
pub type Read<T> = Result<(T, usize), Refused<usize>>;

// What was read, if it passes; else it is refused where it began.
fn passed<T: Copy>(ok: bool, value: T, next: usize, refusal: Refusal, at: usize) -> Read<T>
    ensures { result ≡ passed ok value next refusal at }
{
    if ok {
        Ok((value, next))
    } else {
        Err(Refused { refusal, place: at })
    }
}

// A field of n bytes
fn field_at(s: &[u8], at: usize, n: usize) -> Read<&[u8]>
    ensures reads { read_as (λ b. b.now) result ≡ field n s.now at }
    ensures whole { IfOk result (λ r. length r.0.now ≡ n) }
{
    if n <= s.len() && at <= s.len() - n {
        Ok((&s[at..at + n], at + n))
    } else {
        Err(Refused {
            refusal: Refusal::EndsInside,
            place: at,
        })
    }
}

// The number that bytes make, the lowest first
fn joined(bytes: &[u8]) -> u32
    requires { length bytes.now ≤ 4 }
    ensures { result ≡ little_endian bytes.now }
{
    let mut all = [0; 4];
    all[..bytes.len()].copy_from_slice(bytes);
    u32::from_le_bytes(all)
}

// The number of a field of n bytes
fn number_at(s: &[u8], at: usize, n: usize) -> Read<u32>
    requires { n ≤ 4 }
    ensures { read result ≡ number n s.now at }
{
    let (bytes, next) = field_at(s, at, n)?;
    Ok((joined(bytes), next))
}

// One byte
pub fn byte_at(s: &[u8], at: usize) -> Read<u8>
    ensures { read result ≡ byte s.now at }
{
    let (bytes, next) = field_at(s, at, 1)?;
    Ok((bytes[0], next))
}

// A number from least to most; any other is refused where it stands.
fn ranged_at(s: &[u8], at: usize, least: usize, most: usize, refusal: Refusal) -> Read<u8>
    ensures { read result ≡ ranged least most (number_of refusal) s.now at }
{
    let (value, next) = byte_at(s, at)?;
    let ok = (least..=most).contains(&usize::from(value));
    passed(ok, value, next, refusal, at)
}

// A count, at most so many
pub fn count_at(s: &[u8], at: usize, most: usize) -> Read<u8>
    ensures reads { read result ≡ count most s.now at }
    ensures few { IfOk result (λ r. r.0 ≤ most) }
{
    ranged_at(s, at, 0, most, Refusal::AboveLimit)
}

// A number in its range
pub fn within_at(s: &[u8], at: usize, least: u8, most: u8) -> Read<u8>
    ensures { read result ≡ within least most s.now at }
{
    ranged_at(
        s,
        at,
        usize::from(least),
        usize::from(most),
        Refusal::OutOfRange,
    )
}

// The second place of an atom whose first is p; they are not both 0.
pub fn second_at(s: &[u8], at: usize, v: u8, p: u8) -> Read<u8>
    ensures { read result ≡ second v p s.now at }
{
    within_at(s, at, u8::from(p == 0), v)
}

// The number c of an atom
pub fn constant_at(s: &[u8], at: usize) -> Read<i32>
    ensures { read result ≡ constant s.now at }
{
    let (value, next) = number_at(s, at, 4)?;
    let c = value.cast_signed();
    let ok = (-MOST_C..=MOST_C).contains(&c);
    passed(ok, c, next, Refusal::OutOfRange, at)
}

// A rule, by its number
pub fn rule_at(s: &[u8], at: usize) -> Read<Rule>
    ensures { rule_read result ≡ rule s.now at }
{
    let (value, next) = byte_at(s, at)?;
    match Rule::try_from(value) {
        Ok(rule) => Ok((rule, next)),
        Err(_) => Err(Refused {
            refusal: Refusal::UnknownRule,
            place: at,
        }),
    }
}

// The number of steps
pub fn step_count_at(s: &[u8], at: usize) -> Read<u32>
    ensures reads { read result ≡ step_count s.now at }
    ensures few { IfOk result (λ r. r.0 ≤ most_steps) }
{
    let (value, next) = number_at(s, at, 2)?;
    passed(value <= MOST_STEPS, value, next, Refusal::AboveLimit, at)
}

// The version
pub fn version_at(s: &[u8], at: usize) -> Read<Version>
    ensures { read result ≡ version s.now at }
{
    let (value, next) = number_at(s, at, 2)?;
    match value {
        1 => Ok((Version::One, next)),
        2 => Ok((Version::Two, next)),
        _ => Err(Refused {
            refusal: Refusal::WrongMark,
            place: at,
        }),
    }
}

// The mark
pub fn mark_at(s: &[u8], at: usize) -> Read<()>
    ensures { marked result ≡ mark s.now at }
{
    let (bytes, next) = field_at(s, at, 3)?;
    let ok = bytes == b"DRF".as_slice();
    passed(ok, (), next, Refusal::WrongMark, at)
}

// ---- what is read several times

// n values, one after the other, each read from the place that `one` is handed, as a reading of the definition describes it
pub fn several<T: Copy, const N: usize, F: Fn(usize) -> Read<T>>(
    at: usize,
    n: u8,
    blank: T,
    one: F,
) -> Read<Held<T, N>>
    requires call { F.IsAlwaysCallable one }
    requires room { n ≤ N }
    requires described { Described (F.post one) }
    ensures reads { ReadsEach (F.post one) N blank n at result }
    ensures few { IfOk result (λ r. r.0.n ≡ n) }
{
    let count = usize::from(n);
    let mut values = [blank; N];
    let mut past = at;
    for j in 0..count {
        let (value, next) = one(past)?;
        values[j] = value;
        past = next;
    }
    Ok((
        Held {
            n: count,
            at: values,
        },
        past,
    ))
}
