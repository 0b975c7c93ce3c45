// The trail: entries of both kinds, and what the rules ask of it.
// A slice of entries is the trail of them; it is held in a fixed array with its length, at most 160. Where entries are added or taken away the
// array is also blank past its length, and each entry is the record of what it says: `OwnTrail`.
#![tactic(auto)]

ghost use Rattle.std.specs.Prelude.{◌≡◌, [], not, ◌≤◌, length, position, take};
ghost use Rattle.std.proofs.Math.Option.{none, some};
ghost use Rattle.basis.specs.Limits.{most_entries, most_variables};
ghost use Rattle.lists.specs.Lists.{any_of};
ghost use Rattle.calculus.specs.Trails.{is_literal, is_decision, foreground, background, propagated, decided};
ghost use Rattle.calculus.specs.Trails as trails;
ghost use Rattle.clauses.specs.Records.{clause_of, instanced_of};
ghost use Rattle.trail.specs.Entries.{blank_entry, entry_of, entries_of, packed_trail, Recorded};
ghost use Rattle.trail.specs.Answers.{is_about, literals_seen, levels_seen, passes};

use basis::{Atom, Literal, MOST_ENTRIES, MOST_VARIABLES};
use clauses::{Clause, Instanced, complement, ground, no_atom, no_literal};
use instances::{conflict_instance, first_constants, other_instances};

// What an entry is
#[derive(Clone, Copy, PartialEq, Eq)]
pub enum Kind {
    Background,
    Brought,
    Propagated,
    Decided,
}

// "The trail holds at most 160 entries of both kinds together." A background entry has an atom, and one that a decision brought keeps its source:
// clause, atom number, sign, and an instance of `count` constants. A foreground entry has a literal and keeps its step: clause, literal number,
// Decide's sign, an instance, and how many atoms a decision brought. `spare` is 0: it fills the record up to 32 bytes, so that the blank trail is
// one run of zeros. An array with its count, since no heap is used and an entry has 32 bytes.
#[derive(Clone, Copy)]
pub struct Entry {
    pub atom: Atom,
    pub kind: Kind,
    pub literal: Literal,
    pub clause: u8,
    pub number: u8,
    pub sign: u8,
    pub count: u8,
    pub brought: u8,
    pub spare: u8,
    pub instance: [u8; MOST_VARIABLES],
}

// What Propagate and Conflict ask of a trail: whether a literal is undefined, and the number that refusal 12 names
#[derive(Clone, Copy)]
pub struct LiteralsSeen {
    pub free: bool,
    pub first: Option<u8>,
}

// What Backtrack asks of a trail: L's level, the largest level in D, and how many entries stand before the decision after that
#[derive(Clone, Copy)]
pub struct LevelsSeen {
    pub own: u8,
    pub others: u8,
    pub kept: u8,
}

// The blank entry
#[tactic(auto, unfolding(lists::specs::Arrays::exactly))]
pub fn blank_entry() -> Entry
    ensures { result ≡ blank_entry }
{
    Entry {
        kind: Kind::Background,
        atom: no_atom(),
        literal: no_literal(),
        clause: 0,
        number: 0,
        sign: 0,
        count: 0,
        brought: 0,
        spare: 0,
        instance: [0; MOST_VARIABLES],
    }
}

// The empty trail
pub fn empty_trail() -> [Entry; MOST_ENTRIES]
    ensures { result ≡ packed_trail [] }
{
    [blank_entry(); MOST_ENTRIES]
}

// ---- one entry

fn is_literal(e: Entry, l: Literal) -> bool
    ensures { result ≡ is_literal l (entry_of e) }
{
    matches!(e.kind, Kind::Propagated | Kind::Decided) && l == e.literal
}

pub fn is_decision(e: Entry) -> bool
    ensures { result ≡ is_decision (entry_of e) }
{
    e.kind == Kind::Decided
}

// Whether the entry is the literal or its complement
pub fn is_about(e: Entry, l: Literal) -> bool
    ensures { result ≡ is_about l (entry_of e) }
{
    is_literal(e, l) || is_literal(e, complement(l))
}

// ---- what is on the trail

// Whether the literal or its complement is on the trail
fn is_defined(trail: &[Entry], l: Literal) -> bool
    ensures { result ≡ any_of (λ e. is_about l (entry_of e)) trail.now }
{
    trail.iter().any(|e| is_about(*e, l))
}

// "A literal is undefined if neither it nor its complement is on the trail, false if its complement is."
pub fn undefined(trail: &[Entry], l: Literal) -> bool
    ensures { result ≡ trails.undefined (entries_of trail.now) l }
{
    !is_defined(trail, l)
}

// ---- refusal 12

// "Refusal 12 names the first literal from the left whose instance is not false": where it stands. All must be false, or, where there is an `own`, those
// with another instance.
fn first_failing(
    trail: &[Entry],
    literals: &[Literal],
    instance: &[u8],
    own: Option<Literal>,
) -> Option<usize>
    ensures { result ≡ position (λ l. not (passes own (entries_of trail.now) instance.now l)) literals.now }
{
    let mut first = None;
    'literals: for (j, l) in literals.iter().enumerate() {
        let g = ground(*l, instance);
        if Some(g) == own {
            continue 'literals;
        }
        let denied = complement(g);
        for e in trail {
            if is_literal(*e, denied) {
                continue 'literals;
            }
        }
        first = Some(j);
        break 'literals;
    }
    first
}

// Whether `own` is undefined; and the number, from 1, of the first literal of the clause that must be false and is not, if there is one. All must be
// false, or, where `others`, those with another instance than `own`. A flag beside `own` and no Option, since `own` is looked for in both cases
// (`literals_seen`).
pub fn literals_seen(
    trail: &[Entry],
    clause: Clause,
    instance: &[u8],
    others: bool,
    own: Literal,
) -> LiteralsSeen
    ensures { result ≡ literals_seen (entries_of trail.now) (clause_of clause) instance.now others own }
{
    let excepted = others.then_some(own);
    let first = first_failing(trail, clause.literals(), instance, excepted);
    LiteralsSeen {
        free: undefined(trail, own),
        first: first.map(|j| j as u8 + 1),
    }
}

// ---- levels

// Whether the entry is one of the ground literals or the complement of one
fn is_about_any(e: Entry, literals: &[Literal]) -> bool
    ensures { result ≡ any_of (λ l. is_about l (entry_of e)) literals.now }
{
    literals.iter().any(|l| is_about(e, *l))
}

// "The level of a trail literal, shared by its complement, is the number of decisions up to and including it." So the largest level of
// literals is that of the last entry that is about one of them; and as the number of decisions never falls, entries up to and including
// the last one with so many stand before the next decision.
pub fn levels(trail: &[Entry], n: Instanced, l: u8) -> LevelsSeen
    requires { length trail.now ≤ most_entries }
    ensures { result ≡ levels_seen (instanced_of n) l (entries_of trail.now) }
{
    let g = conflict_instance(n, l);
    let d = other_instances(n, l);
    let literals = d.as_slice();
    let mut decisions = 0;
    let mut own = 0;
    let mut others = 0;
    let mut kept = 0;
    for (k, e) in trail.iter().enumerate() {
        decisions += u8::from(is_decision(*e));
        if is_about(*e, g) {
            own = decisions;
        }
        if is_about_any(*e, literals) {
            others = decisions;
        }
        if decisions <= others {
            kept = k as u8 + 1;
        }
    }
    LevelsSeen { own, others, kept }
}

// ---- entries that the rules append

// An atom that Propagate and Backtrack append
pub fn background_entry(a: Atom) -> Entry
    ensures { Recorded result (background a none) }
{
    Entry {
        atom: a,
        ..blank_entry()
    }
}

// An atom that a decision brings, with its source
pub fn brought_entry(a: Atom, clause: u8, number: u8, sign: u8, instance: &[u8]) -> Entry
    ensures { Recorded result (background a (some (record { clause = clause; number = number; sign = sign; instance = take most_variables instance.now }))) }
{
    Entry {
        kind: Kind::Brought,
        atom: a,
        clause,
        number,
        sign,
        count: instance.len().min(MOST_VARIABLES) as u8,
        instance: first_constants(instance),
        ..blank_entry()
    }
}

// The entry that Propagate and Backtrack append
pub fn propagated_entry(l: Literal, clause: u8, number: u8, instance: &[u8]) -> Entry
    ensures { Recorded result (foreground l (propagated clause number (take most_variables instance.now))) }
{
    Entry {
        kind: Kind::Propagated,
        literal: l,
        clause,
        number,
        count: instance.len().min(MOST_VARIABLES) as u8,
        instance: first_constants(instance),
        ..blank_entry()
    }
}

// The entry of the literal that Decide appends, with how many atoms it brings
pub fn decided_entry(
    l: Literal,
    clause: u8,
    number: u8,
    positive: bool,
    instance: &[u8],
    brought: u8,
) -> Entry
    ensures { Recorded result (foreground l (decided clause number positive (take most_variables instance.now) brought)) }
{
    Entry {
        kind: Kind::Decided,
        sign: u8::from(positive),
        brought,
        ..propagated_entry(l, clause, number, instance)
    }
}
