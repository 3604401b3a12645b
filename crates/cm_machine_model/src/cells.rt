//! The array that core values in place lie in.

ghost use Rattle.std.specs.Prelude.{◌≡◌, ◌≤◌, length, take};
ghost use Rattle.std.specs.Borrow.{sem};

/// An array in a struct of its own, so that a contract can say what a loan of its first elements
/// leaves.
#[derive(Clone, Copy, Drop)]
pub(crate) struct Cells<T, const N: usize> {
    pub(crate) xs: [T; N],
}

impl<T, const N: usize> Cells<T, N> {
    ghost use Rattle.cm_machine_model.specs.Cells.{lends_front};

    /// The first `count` elements, for writing in their places.
    #[inline]
    pub(crate) fn front_mut(&mut self, count: usize) -> &mut [T]
        requires { count ≤ N }
        ensures* writes_back { sem 𝓛 (lends_front T.row N.row self.entry result) }
        ensures value { result.now ≡ take count self.old.xs }
    {
        &mut self.xs[..count]
    }
}

impl<T: Copy, const N: usize> Cells<T, N> {
    /// Writes the elements of a slice over the first ones, of which there are as many.
    pub(crate) fn put_front(&mut self, slice: &[T])
        requires { length slice.now ≤ N }
        ensures first { take (length slice.now) self.new.xs ≡ slice.now }
        ensures length { length self.new.xs ≡ length self.old.xs }
    {
        self.xs[..slice.len()].copy_from_slice(slice);
    }
}
