// Writing text into a lent buffer: each function writes from a place on and answers the place after what it wrote. The caller sees to the room.
#![tactic(auto)]

ghost use Rattle.std.specs.Prelude.{◌≡◌, [], ◌∷◌, ◌+◌, ◌≤◌, ◌<◌, length};
ghost use Rattle.text.specs.Text.{Wrote, decimal, signed_text};
ghost use Rattle.text.specs.Text as text;

// The buffer and the place stay two parameters: a struct that holds the `&mut` would have every promise say, beside the bytes, that it still holds
// the same buffer (`self.new.out.ghost_name ≡ self.old.out.ghost_name`).
pub fn put_byte(out: &mut [u8], at: usize, b: u8) -> usize
    requires { at < length out.old }
    ensures { Wrote out.old at (b ∷ []) out.new result }
{
    out[at] = b;
    at + 1
}

// Byte by byte: where the compiler does not know how long the word is, it makes a call of `memmove` of `copy_from_slice`, and the library for other
// languages calls `memcpy` and `memset` alone.
pub fn put_word(out: &mut [u8], at: usize, word: &[u8]) -> usize
    requires { at + length word.now ≤ length out.old }
    ensures { Wrote out.old at word.now out.new result }
{
    for (j, b) in word.iter().enumerate() {
        out[at + j] = *b;
    }
    at + word.len()
}

fn digit(n: usize) -> u8
    requires { n < 10 }
    ensures { result ≡ text.digit n }
{
    b'0' + n as u8
}

// A number in decimal digits
#[tactic(auto, using(crate::proofs::Text::decimal_small, crate::proofs::Text::length_small, crate::proofs::Text::length_more))]
pub fn put_decimal(out: &mut [u8], at: usize, n: usize) -> usize
    requires { at + length (decimal n) ≤ length out.old }
    ensures { Wrote out.old at (decimal n) out.new result }
{
    if n < 10 {
        return put_byte(out, at, digit(n));
    }
    let next = put_decimal(out, at, n / 10);
    put_byte(out, next, digit(n % 10))
}

// A number with its sign
pub fn put_signed(out: &mut [u8], at: usize, n: i32) -> usize
    requires { at + length (signed_text n) ≤ length out.old }
    ensures { Wrote out.old at (signed_text n) out.new result }
{
    let mut next = at;
    if n < 0 {
        next = put_byte(out, at, b'-');
    }
    put_decimal(out, next, n.unsigned_abs() as usize)
}
