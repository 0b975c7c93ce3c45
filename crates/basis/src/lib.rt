// The limits that code needs, each under the name that it has in specs/Limits.antt; the refusals and the rules with their numbers; the versions of
// the run file and what depends on them; and the records that every crate shares.
#![tactic(auto)]

ghost use Rattle.std.specs.Prelude.{◌≡◌};
ghost use Rattle.basis.specs.Refusals.{number_of};
ghost use Rattle.basis.specs.RuleNumbers.{rule_number, rule_numbered};
ghost use Rattle.basis.specs.Versions.{form_of};

pub const MOST_VARIABLES: usize = 12;

pub const MOST_ATOMS: usize = 24;

pub const MOST_LITERALS: usize = 8;

pub const MOST_INPUT: usize = 48;

pub const MOST_PREDICATES: usize = 8;

pub const MOST_ARGUMENTS: usize = 3;

pub const MOST_CONSTANTS: usize = 16;

pub const MOST_ENTRIES: usize = 160;

pub const MOST_LEARNED: usize = 48;

pub const MOST_CLAUSES: usize = 96;

pub const MOST_BROUGHT: usize = 24;

pub const MOST_TESTED: usize = 184;

pub const MOST_C: i32 = 1000000;

pub const MOST_DENIED: i32 = 1000001;

pub const MOST_ROWS: usize = 48;

// The refusals of the table
#[derive(Clone, Copy, PartialEq, Eq)]
pub enum Refusal {
    EndsInside,
    WrongMark,
    AboveLimit,
    OutOfRange,
    OccursNowhere,
    LacksBound,
    UnknownRule,
    Surplus,
    WrongMoment,
    NoSuch,
    AlreadyDefined,
    NotFalse,
    NotPossible,
    NoEntry,
    WrongLiteral,
    NotAbove,
    KeptNotPossible,
    NoRoom,
    TooManyRows,
    NotInOrder,
    BufferShort,
    TooLong,
}

// Each refusal's number
impl From<Refusal> for u8 {
    ghost from_gives = { λ refusal n. n ≡ number_of refusal };

    fn from(refusal: Refusal) -> u8 {
        match refusal {
            Refusal::EndsInside => 1,
            Refusal::WrongMark => 2,
            Refusal::AboveLimit => 3,
            Refusal::OutOfRange => 4,
            Refusal::OccursNowhere => 5,
            Refusal::LacksBound => 6,
            Refusal::UnknownRule => 7,
            Refusal::Surplus => 8,
            Refusal::WrongMoment => 9,
            Refusal::NoSuch => 10,
            Refusal::AlreadyDefined => 11,
            Refusal::NotFalse => 12,
            Refusal::NotPossible => 13,
            Refusal::NoEntry => 14,
            Refusal::WrongLiteral => 15,
            Refusal::NotAbove => 16,
            Refusal::KeptNotPossible => 17,
            Refusal::NoRoom => 18,
            Refusal::TooManyRows => 19,
            Refusal::NotInOrder => 20,
            Refusal::BufferShort => 21,
            Refusal::TooLong => 22,
        }
    }
}

// A refusal, and the place that it names
#[derive(Clone, Copy, PartialEq, Eq)]
pub struct Refused<P> {
    pub refusal: Refusal,
    pub place: P,
}

// The rules of the calculus, in the order of their numbers
#[derive(Clone, Copy, PartialEq, Eq)]
pub enum Rule {
    Propagate,
    Decide,
    Conflict,
    Resolve,
    Factorize,
    Skip,
    Backtrack,
    Grow,
}

// A number that no rule has
#[derive(Clone, Copy, PartialEq, Eq)]
pub struct UnknownRule;

impl TryFrom<u8> for Rule {
    type Error = UnknownRule;

    ghost try_from_gives = { λ n rule. rule ≡ rule_numbered n };

    fn try_from(n: u8) -> Result<Rule, UnknownRule> {
        match n {
            1 => Ok(Rule::Propagate),
            2 => Ok(Rule::Decide),
            3 => Ok(Rule::Conflict),
            4 => Ok(Rule::Resolve),
            5 => Ok(Rule::Factorize),
            6 => Ok(Rule::Skip),
            7 => Ok(Rule::Backtrack),
            8 => Ok(Rule::Grow),
            _ => Err(UnknownRule),
        }
    }
}

impl From<Rule> for u8 {
    ghost from_gives = { λ rule n. n ≡ rule_number rule };

    fn from(rule: Rule) -> u8 {
        match rule {
            Rule::Propagate => 1,
            Rule::Decide => 2,
            Rule::Conflict => 3,
            Rule::Resolve => 4,
            Rule::Factorize => 5,
            Rule::Skip => 6,
            Rule::Backtrack => 7,
            Rule::Grow => 8,
        }
    }
}

// The numbers behind a yes, one for each constant in order, 0 past the constants
pub type Numbers = [i32; MOST_CONSTANTS];

// The version of a run file, or of a state that is made without one
#[derive(Clone, Copy, PartialEq, Eq)]
pub enum Version {
    One,
    Two,
}

// What depends on the version: whether decisions bring atoms.
#[derive(Clone, Copy)]
pub struct Form {
    pub brings: bool,
}

// The atom record: a background atom p - q at most c, over places (a variable or a constant by its number; 0 is the number zero).
#[derive(Clone, Copy, PartialEq, Eq)]
pub struct Atom {
    pub p: u8,
    pub q: u8,
    pub c: i32,
}

// The literal record: a sign, a predicate and its arguments, variables or constants by their numbers; 0 past the predicate's arity.
#[derive(Clone, Copy, PartialEq, Eq)]
pub struct Literal {
    pub positive: bool,
    pub predicate: u8,
    pub x: u8,
    pub y: u8,
    pub z: u8,
}

// What depends on the version
pub fn form_of(version: Version) -> Form
    ensures { result ≡ form_of version }
{
    match version {
        Version::One => Form { brings: false },
        Version::Two => Form { brings: true },
    }
}
