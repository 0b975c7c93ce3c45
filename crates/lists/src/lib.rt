// Lists in arrays of a fixed length; and, without code, definitions and laws of lists and tests.
#![tactic(auto)]

ghost use Rattle.std.specs.Prelude.{◌≡◌, ◌<◌, [], take};
ghost use Rattle.lists.specs.Arrays.{held, pushed};

// The first `n` of an array
#[derive(Clone, Copy)]
pub struct Held<T, const N: usize> {
    pub n: usize,
    pub at: [T; N],
}

impl<T: Copy, const N: usize> Held<T, N> {
    // None, blank throughout
    pub fn new(blank: T) -> Held<T, N>
        ensures { result ≡ held N blank [] }
    {
        Held {
            n: 0,
            at: [blank; N],
        }
    }

    // One more, after the others
    pub fn push(&mut self, x: T)
        requires { self.old.n < N }
        ensures { self.new ≡ pushed self.old x }
    {
        self.at[self.n] = x;
        self.n += 1;
    }

    // Those that it holds, and no more than it has room for
    pub fn as_slice(&self) -> &[T]
        ensures { result.now ≡ take self.now.n self.now.at }
    {
        &self.at[..self.n.min(N)]
    }
}
