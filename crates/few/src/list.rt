// The list alone; what it holds is in specs/Held.antt.
ghost use Rattle.std.specs.Prelude.{◌≡◌, ◌≤◌, ⊤, length};

use std::alloc::AllocError;

// At most N elements: the first `len` of the array. What stands behind them means nothing.
pub struct Few<T, const N: usize> {
    pub items: [T; N],
    pub len: usize,
    ghost most: { len ≤ N },
    ghost whole: { length items ≡ N },
}

// By hand: no derive makes a Clone of a generic struct with a ghost field.
impl<T: Copy, const N: usize> Clone for Few<T, N> {
    ghost is_clone = { λ x y. y ≡ x };

    ghost is_infallible = { λ _. ⊤ };

    fn clone(&self) -> Result<Self, AllocError> {
        Ok(*self)
    }
}

impl<T: Copy, const N: usize> Copy for Few<T, N> {}
