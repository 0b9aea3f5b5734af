// Lists in fixed memory, and values over those of a slice.
#![tactic(auto)]

ghost use Rattle.std.specs.Prelude.{◌≡◌, ⊤, [], ◌∷◌, ◌++◌, ◌+◌, ◌≤◌, ◌<◌, length};

use std::alloc::AllocError;

// Up to N values, the first of an array. Contracts speak of these, as `values`, and not of what stands behind them.
pub struct Counted<T, const N: usize> {
    array: [T; N],
    count: usize,
    pub ghost few: { count ≤ N },
}

// A second list is the same one, and needs no memory.
impl<T: Copy, const N: usize> Clone for Counted<T, N> {
    ghost is_clone = { λ x y. y ≡ x };

    ghost is_infallible = { λ _. ⊤ };

    fn clone(&self) -> Result<Self, AllocError> {
        Ok(*self)
    }
}

impl<T: Copy, const N: usize> Copy for Counted<T, N> {}

impl<T: Copy, const N: usize> Counted<T, N> {
    ghost use Rattle.counted.specs.Values.{values};

    // No value yet. The array is handed in whole, with what is of no matter in it: to fill it here from one value would
    // take far more instructions.
    pub fn new(array: [T; N]) -> Self
        ensures { values result ≡ [] }
    {
        Counted { array, count: 0 }
    }

    // How many values.
    pub fn len(&self) -> usize
        ensures { result ≡ length (values self.now) }
    {
        self.count
    }

    // The values.
    pub fn as_slice(&self) -> &[T]
        ensures { result.now ≡ values self.now }
    {
        &self.array[..self.count]
    }

    // One value more.
    pub fn push(&mut self, value: T)
        requires { length (values self.old) < N }
        ensures { values self.new ≡ values self.old ++ value ∷ [] }
    {
        self.array[self.count] = value;
        self.count += 1;
    }

    // Values, one behind the other.
    pub fn push_all(&mut self, more: &[T])
        requires { length (values self.old) + length more.now ≤ N }
        ensures { values self.new ≡ values self.old ++ more.now }
    {
        let count = self.count + more.len();
        // A slice first: of an array whose length is a parameter no part can be lent for writing yet.
        let array = &mut self.array[..];
        overwrite(&mut array[self.count..count], more);
        self.count = count;
    }
}

/// The values of `from` over those of `to`, which has as many, one by one. The library's `copy_from_slice` is C's
/// `memmove` where the compiler can't see that the two are apart, and so is a table assigned from behind a reference;
/// the archives for C need `memcpy` and `memset` from outside, and nothing else.
pub fn overwrite<T: Copy>(to: &mut [T], from: &[T])
    requires { length to.old ≡ length from.now }
    ensures { to.new ≡ from.now }
{
    for i in 0..from.len() {
        to[i] = from[i];
    }
}
