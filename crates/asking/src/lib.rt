// What a step looks at of the clause table, and what the rules ask of the conflict, of an entry and of the clause that is looked at.
#![tactic(auto)]

ghost use Rattle.std.specs.Prelude.{◌≡◌, [], ◌∷◌, ◌&&◌, cond, map, ◌+◌, ◌-◌, ◌≤◌, ◌<◌, min, length, take, leb};
ghost use Rattle.basis.specs.Limits.{most_brought, most_variables, most_clauses};
ghost use Rattle.calculus.specs.Checks.{between, first_refusal};
ghost use Rattle.calculus.specs.Clauses.{same_literal};
ghost use Rattle.calculus.specs.Clauses as calculus;
ghost use Rattle.calculus.specs.Tests.{counts_few, literal_exists, instance_fits, complement_in_conflict, signs_fit};
ghost use Rattle.calculus.specs.Rules.{atom_numbered, literal_instance, source_in};
ghost use Rattle.calculus.specs.Trails.{is_decision};
ghost use Rattle.clauses.specs.Records.{clause_of, instanced_of};
ghost use Rattle.trail.specs.Entries.{entry_of};
ghost use Rattle.merging.specs.Results.{resolved, reason_of};
ghost use Rattle.asking.specs.Trying.{answer_number, check_of};
ghost use Rattle.asking.specs.Kinds.{is_propagated};
ghost use Rattle.asking.specs.Looking.{count_brought, count_looked, looked_in, number_looked, right_in, slot_of};
ghost use Rattle.asking.specs.Steps.{no_source, source_of, sources_in};

use basis::{Atom, MOST_BROUGHT, MOST_CLAUSES, MOST_VARIABLES, Refusal, Rule, Version, form_of};
use clauses::{Clause, Instanced, complement, denial, ground_atom, no_atom, no_clause};
use instances::{conflict_instance, has_instance, index_of, instance_fits, literal_exists};
use merging::reason_of;
use slices::prefix;
use trail::{Entry, Kind, is_decision};

// What a step looks at of the clause table, filled by whoever owns the table: the one clause, blank where there is none.
#[derive(Clone, Copy)]
pub struct Looked {
    pub clause: Clause,
}

// An atom as a Decide names it: clause, atom number, sign (1 as it stands, 0 denied), and an instance of `count` constants
#[derive(Clone, Copy)]
pub struct Source {
    pub clause: u8,
    pub number: u8,
    pub sign: u8,
    pub count: u8,
    pub instance: [u8; MOST_VARIABLES],
}

// One proposed step: a rule number and its arguments; those that the rule has no use for are not looked at. A Decide ends with `brought` atoms.
// One record and no enum, since whatever step is offered is answered, an unknown rule's by 7 (`Demand1`).
#[derive(Clone, Copy)]
pub struct Step {
    pub rule: u8,
    pub clause: u8,
    pub literal: u8,
    pub other: u8,
    pub sign: u8,
    pub amount: u8,
    pub count: u8,
    pub brought: u8,
    pub instance: [u8; MOST_VARIABLES],
    pub atoms: [Source; MOST_BROUGHT],
}

// What the atoms that a Decide names are, filled by whoever owns the table: whether each is named rightly, and the ground atoms, blank past
// their count. No Option: `WeighsAll` promises the count and the numbers of a Decide refused for a wrong name too, so the atoms stand beside a no.
#[derive(Clone, Copy)]
pub struct Named {
    pub right: bool,
    pub at: [Atom; MOST_BROUGHT],
}

impl Source {
    // Its constants, as many as are counted and no more than there is room for
    pub fn constants(&self) -> &[u8]
        ensures { result.now ≡ take self.now.count self.now.instance }
    {
        prefix(&self.instance, usize::from(self.count))
    }
}

impl Step {
    // Its constants, likewise
    pub fn constants(&self) -> &[u8]
        ensures { result.now ≡ take self.now.count self.now.instance }
    {
        let count = usize::from(self.count);
        prefix(&self.instance, count)
    }
}

// ---- which numbers name something

// Whether c is the number of one of so many clauses
fn clause_exists(clauses: u8, c: u8) -> bool
    ensures { result ≡ between 1 clauses c }
{
    1 <= c && c <= clauses
}

// A clause of so many, and an instance for it, which is none where it is too long
pub fn instance_named(constants: u8, clauses: u8, c: u8, clause: Clause, instance: &[u8]) -> bool
    ensures { result ≡ (leb (length instance.now) most_variables && (between 1 clauses c && instance_fits constants (clause_of clause) instance.now)) }
{
    instance.len() <= MOST_VARIABLES
        && clause_exists(clauses, c)
        && instance_fits(constants, clause, instance)
}

// .. and a literal of it
pub fn literal_named(
    constants: u8,
    clauses: u8,
    c: u8,
    clause: Clause,
    l: u8,
    instance: &[u8],
) -> bool
    ensures { result ≡ (leb (length instance.now) most_variables && (between 1 clauses c && (literal_exists (clause_of clause) l && instance_fits constants (clause_of clause) instance.now))) }
{
    literal_exists(clause, l) && instance_named(constants, clauses, c, clause, instance)
}

// "A step's reasons are tried in rising order": the refusal of the first condition that does not hold
pub fn first_lacking(conditions: &[(bool, Refusal)]) -> Result<(), Refusal>
    ensures { answer_number result ≡ first_refusal (map check_of conditions.now) }
{
    for (holds, refusal) in conditions {
        if !*holds {
            return Err(*refusal);
        }
    }
    Ok(())
}

// ---- the conflict and an entry

pub fn is_propagated(e: Entry) -> bool
    ensures { result ≡ is_propagated e.kind }
{
    matches!(e.kind, Kind::Propagated)
}

// Whether the entry's literal is the complement of the conflict's literal l
pub fn is_complement(e: Entry, n: Instanced, l: u8) -> bool
    ensures { result ≡ same_literal (calculus.complement e.literal) (literal_instance (instanced_of n) l) }
{
    complement(e.literal) == conflict_instance(n, l)
}

// Whether the entry is a literal whose complement is in the conflict
pub fn in_conflict(n: Instanced, e: Entry) -> bool
    ensures { result ≡ complement_in_conflict (instanced_of n) (entry_of e ∷ []) }
{
    match e.kind {
        Kind::Background | Kind::Brought => false,
        Kind::Propagated | Kind::Decided => has_instance(n, complement(e.literal)),
    }
}

// "A decision skipped lowers k by one."
pub fn level_after(e: Entry, k: u8) -> u8
    ensures { result ≡ cond (is_decision (entry_of e)) (k - 1) k }
{
    if is_decision(e) {
        k.saturating_sub(1)
    } else {
        k
    }
}

// The conflict resolved at its literal l with the reason that the entry's step gives, of that step's clause
pub fn resolvent(n: Instanced, l: u8, e: Entry, clause: Clause) -> Option<Instanced>
    ensures { result ≡ resolved n (l - 1) (reason_of clause (e.number - 1) e.instance).of (reason_of clause (e.number - 1) e.instance).own }
{
    let instance = e.instance;
    let reason = reason_of(&Instanced { clause, instance }, index_of(e.number));
    merging::resolve(&n, index_of(l), &reason.of, reason.own)
}

// ---- what a step looks at

// The slot of the last entry; of the empty trail the first
pub fn last_slot(length: u8) -> usize
    ensures { result ≡ length - 1 }
{
    index_of(length)
}

// The number of the clause that the entry's step names, where it was propagated; else 0
fn clause_named(e: Entry) -> u8
    ensures { result ≡ cond (is_propagated e.kind) e.clause 0 }
{
    if is_propagated(e) { e.clause } else { 0 }
}

// The number of the clause that a step looks at: the named one; Resolve looks at that of the last entry's step. 0 where it looks at none:
// a number and no Option, since a step may name any number, 0 too, and what no clause has is blank (`looked_in`).
pub fn number_looked(last: Entry, rule: u8, clause: u8) -> u8
    ensures { result ≡ number_looked last rule clause }
{
    match Rule::try_from(rule) {
        Ok(Rule::Propagate | Rule::Decide | Rule::Conflict) => clause,
        Ok(Rule::Resolve) => clause_named(last),
        _ => 0,
    }
}

// Whether a table has a slot for clause c
fn in_table(c: u8) -> bool
    ensures { result ≡ between 1 most_clauses c }
{
    1 <= c && usize::from(c) <= MOST_CLAUSES
}

// The slot of a clause's number in the table; of a number that no table has, the first
pub fn slot_of(c: u8) -> usize
    ensures { (result ≡ slot_of c) × (result < most_clauses) }
{
    if in_table(c) { usize::from(c) - 1 } else { 0 }
}

// What is looked at where a step looks at clause c, whose slot has `held`
pub fn looked_at(c: u8, held: Clause) -> Looked
    ensures { result ≡ looked_in c held }
{
    let clause = if in_table(c) { held } else { no_clause() };
    Looked { clause }
}

// ---- the atoms that a Decide names

// A blank source
#[tactic(auto, unfolding(lists::specs::Arrays::exactly))]
pub fn no_source() -> Source
    ensures { result ≡ no_source }
{
    Source {
        clause: 0,
        number: 0,
        sign: 0,
        count: 0,
        instance: [0; MOST_VARIABLES],
    }
}

// How many atoms a Decide brings: "Version 1 decisions bring none."
pub fn count_brought(version: Version, x: Step) -> u8
    ensures { result ≡ count_brought version x }
{
    if form_of(version).brings {
        x.brought
    } else {
        0
    }
}

// .. and no more than there is room for
pub fn first_brought(version: Version, x: Step) -> u8
    ensures { (result ≡ min most_brought (count_brought version x)) × (result ≤ most_brought) }
{
    count_brought(version, x).min(MOST_BROUGHT as u8)
}

// How many atoms of a step are looked at in the table
pub fn count_looked(version: Version, x: Step) -> usize
    ensures { (result ≡ count_looked version x) × (result ≤ most_brought) × (length x.atoms ≡ most_brought) }
{
    match Rule::try_from(x.rule) {
        Ok(Rule::Decide) => usize::from(first_brought(version, x)),
        _ => 0,
    }
}

// "3 for the counts": of the first n atoms that a step names
pub fn counts_few(x: Step, n: u8) -> bool
    ensures { result ≡ counts_few (sources_in n x) }
{
    let n = usize::from(n);
    n <= MOST_BROUGHT
        && x.atoms[..n]
            .iter()
            .all(|z| usize::from(z.count) <= MOST_VARIABLES)
}

// "4 for its sign above 1"
pub fn signs_fit(x: Step, n: u8) -> bool
    requires { n ≤ most_brought }
    ensures { result ≡ signs_fit (sources_in n x) }
{
    x.atoms[..usize::from(n)].iter().all(|z| z.sign <= 1)
}

// Whether the source names an atom of its clause, which is `held`
pub fn named_rightly(constants: u8, clauses: u8, z: Source, held: Clause) -> bool
    ensures { result ≡ right_in constants clauses held z }
{
    1 <= z.number
        && usize::from(z.number) <= held.atoms().len()
        && usize::from(z.count) <= MOST_VARIABLES
        && instance_named(constants, clauses, z.clause, held, z.constants())
}

// The clause's atom with this number, blank where it has none
fn atom_numbered(held: Clause, n: u8) -> Atom
    ensures { result ≡ atom_numbered (clause_of held) n }
{
    held.atoms().get(index_of(n)).copied().unwrap_or(no_atom())
}

// The atom that it names
pub fn source_atom(z: Source, held: Clause) -> Atom
    ensures { result ≡ source_in (clause_of held) (source_of z) }
{
    let own = atom_numbered(held, z.number);
    let g = ground_atom(own, z.constants());
    if z.sign == 1 { g } else { denial(g) }
}
