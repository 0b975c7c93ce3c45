// Lent slices read at any place: what stands there, or another value past the end; and what stands before a place.
#![tactic(auto)]

ghost use Rattle.std.specs.Prelude.{◌≡◌, ◌≤◌, get_or, length, take};

pub fn at_or<T: Copy>(s: &[T], k: usize, past: T) -> T
    ensures { result ≡ get_or s.now k past }
{
    s.get(k).copied().unwrap_or(past)
}

// The first `count` elements, or all
pub fn prefix<T: Copy>(s: &[T], count: usize) -> &[T]
    ensures first { result.now ≡ take count s.now }
    ensures few { length result.now ≤ length s.now }
{
    &s[..count.min(s.len())]
}
