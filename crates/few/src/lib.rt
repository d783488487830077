// A short list in an array: what a Vec is where no memory may be asked for. It is `Copy`, which the kit's ArrayVec is not: a state holds it, and a state is
// kept by value while an event changes another.
#![tactic(auto)]

ghost use Rattle.std.specs.Prelude.{◌≡◌, ℕ, ◌+◌, ◌&&◌, [], ◌∷◌, ◌++◌, length, take, drop, is_some, IfSome, nat_le, nat_lt};
ghost use Rattle.std.specs.Fn.{CalledAt};
ghost use Rattle.std.specs.List.Retain.{IsFiltered};
ghost use Rattle.few.specs.Held.{held, pick};

mod list;

pub use list::Few;

impl<T: Copy, const N: usize> Few<T, N> {
    // None; the array is filled with `blank`.
    pub fn new(blank: T) -> Self
        ensures { held result ≡ [] }
    {
        Few {
            items: [blank; N],
            len: 0,
        }
    }

    // The elements of a slice, where there is room for them; the rest of the array is filled with `blank`.
    pub fn from_slice(xs: &[T], blank: T) -> Option<Self>
        ensures answer { is_some result ≡ nat_le (length xs.now) N }
        ensures items { IfSome result (λ f. held f ≡ xs.now) }
    {
        if xs.len() > N {
            return None;
        }
        let mut items = [blank; N];
        items[..xs.len()].copy_from_slice(xs);
        Some(Few {
            items,
            len: xs.len(),
        })
    }

    // The elements.
    pub fn as_slice(&self) -> &[T]
        ensures { result.now ≡ held self.now }
    {
        &self.items[..self.len]
    }

    // One more, where there is room; whether there is.
    pub fn push(&mut self, x: T) -> bool
        ensures answer { result ≡ nat_lt (length (held self.old)) N }
        ensures items { held self.new ≡ pick result (held self.old ++ x ∷ []) (held self.old) }
    {
        if self.len == N {
            return false;
        }
        self.items[self.len] = x;
        self.len += 1;
        true
    }

    // So many more, where there is room for all of them; whether there is.
    pub fn extend_from_slice(&mut self, more: &[T]) -> bool
        ensures answer { result ≡ nat_le (length (held self.old) + length more.now) N }
        ensures items { held self.new ≡ pick result (held self.old ++ more.now) (held self.old) }
    {
        if more.len() > N - self.len {
            return false;
        }
        let end = self.len + more.len();
        let all = &mut self.items[..];
        all[self.len..end].copy_from_slice(more);
        self.len = end;
        true
    }

    // One more behind the first k, the others one place on, where there is room and so many are there; whether there is.
    pub fn insert(&mut self, k: usize, x: T) -> bool
        ensures answer { result ≡ (nat_lt (length (held self.old)) N && nat_le k (length (held self.old))) }
        ensures items { held self.new ≡ pick result (take k (held self.old) ++ x ∷ drop k (held self.old)) (held self.old) }
    {
        if self.len == N || k > self.len {
            return false;
        }
        self.items.copy_within(k..self.len, k + 1);
        self.items[k] = x;
        self.len += 1;
        true
    }

    // Only those at which f says true, in their order.
    pub fn retain<F: FnMut(&T) -> bool>(&mut self, mut f: F)
        requires { F.IsAlwaysCallable f }
        ensures { IsFiltered (CalledAt F.FnMut) f (held self.old) (held self.new) }
    {
        let all = *self;
        // counted here and not in the list, which would be written at each element
        let mut kept = 0;
        for x in all.as_slice() {
            if f(x) {
                self.items[kept] = *x;
                kept += 1;
            }
        }
        self.len = kept;
    }
}
