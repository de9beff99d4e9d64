// Values one after another in fixed memory. (`ArrayVec` of `arrayvec` asks for a `Default`, which a curve has not.)
#![tactic(auto)]

ghost use Rattle.std.specs.Prelude.{◌≡◌, ◌≤◌, ◌<◌, List, [], ◌∷◌, ◌++◌, take, length};

use std::marker::Model;

// At most N values.
#[derive(Drop)]
pub struct Stack<T: Copy, const N: usize> {
    space: [T; N],
    many: usize,
}

// Clauses see the values, the first first.
impl<T: Copy, const N: usize> Model for Stack<T, N> {
    ghost Value = { List T };

    ghost view = { λ s. take s.many s.space };

    ghost invariant = { λ s. s.many ≤ N };
}

impl<T: Copy, const N: usize> Stack<T, N> {
    // None; the space is filled with some value. Inlined, so that the space is filled where it stands.
    #[inline(always)]
    pub fn new(fill: T) -> Self
        ensures { result ≡ [] }
    {
        Stack {
            space: [fill; N],
            many: 0,
        }
    }

    pub fn push(&mut self, x: T)
        requires { length self.old < N }
        ensures { self.new ≡ self.old ++ x ∷ [] }
    {
        self.space[self.many] = x;
        self.many += 1;
    }

    // How many there are.
    pub fn len(&self) -> usize
        ensures within { result ≤ N }
        ensures all { result ≡ length self.now }
    {
        self.many
    }

    pub fn as_slice(&self) -> &[T]
        ensures within { length result.now ≤ N }
        ensures all { result.now ≡ self.now }
    {
        &self.space[..self.many]
    }
}
