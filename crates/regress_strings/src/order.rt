//! Strings in lexicographic order.
ghost use Rattle.std.specs.Prelude.{IfOk};
ghost use Rattle.regress_strings.specs.Contents.{contents};
ghost use Rattle.regress_strings.specs.Order.{IsOrder, IsOrder-prop};
ghost use Rattle.regress_strings.specs.Pairs.{ArePairs};

use std::alloc::{AllocError, Global};

/// Strings and their order.
#[derive(Drop)]
pub(crate) struct Order {
    pub(crate) strings: Vec<Vec<u8>>,
    /// The indices of the strings, in ascending order of the strings. Those of equal strings ascend.
    pub(crate) indices: Vec<usize>,
    ghost is_order: { IsOrder (contents strings.items) indices.items } by { IsOrder-prop (contents strings.items) indices.items },
}

impl Order {
    ghost use Rattle.std.specs.Prelude.{◌≡◌, ℕ, ◌<◌, ◌≤◌, slice_index};
    ghost use Rattle.regress_strings.specs.Ordered.{IsLastBelow, place_count, string_of};

    /// Returns the order of strings.
    ///
    /// # Complexity
    /// O(n log n) comparisons of two strings for n strings.
    ///
    /// # Errors
    /// Returns [`AllocError`] if an allocation fails.
    pub(crate) fn new(alloc: Global, strings: Vec<Vec<u8>>) -> Result<Order, AllocError>
        ensures { IfOk result (λ order. order.strings.items ≡ strings.items) }
    {
        let indices = indices_of(alloc, &strings)?;
        Ok(Order { strings, indices })
    }

    /// Returns the number of the strings.
    pub(crate) fn len(&self) -> usize
        ensures { result ≡ place_count self.now }
    {
        self.indices.len()
    }

    /// Returns the string at a place of the order.
    ///
    /// # Preconditions
    /// `place` is less than [`Order::len`].
    pub(crate) fn string(&self, place: usize) -> &[u8]
        requires { place < place_count self.now }
        ensures { result.now ≡ string_of self.now place }
    {
        &self.strings[self.indices[place]]
    }

    /// Returns one more than the greatest index below `before` at the places from `first` on and below `count`, or 0 if there
    /// is none.
    ///
    /// # Complexity
    /// Logarithmic in the number of these places.
    ///
    /// # Preconditions
    /// The indices at these places ascend.
    pub(crate) fn last_below(&self, first: usize, count: usize, before: usize) -> usize
        requires ordered { first ≤ count }
        requires in_range { count ≤ place_count self.now }
        requires ascend { (i j : ℕ) → first ≤ i → i ≤ j → j < count → slice_index self.now.indices.items i ≤ slice_index self.now.indices.items j }
        ensures { IsLastBelow self.now first count before result }
    {
        let indices = &self.indices[first..count];
        let below = indices.partition_point(|index| *index < before);
        if below == 0 {
            return 0;
        }
        indices[below - 1] + 1
    }
}

/// Returns the indices of the strings in ascending order of the strings. Those of equal strings ascend.
fn indices_of(alloc: Global, strings: &[Vec<u8>]) -> Result<Vec<usize>, AllocError>
    ensures { IfOk result (λ indices. IsOrder (contents strings.now) indices.items) }
{
    let mut pairs = pairs_of(alloc, strings)?;
    pairs.sort_unstable();
    let mut indices = Vec::new(alloc);
    for place in 0..pairs.len() {
        let (_, index) = pairs[place];
        indices.push(index)?;
    }
    Ok(indices)
}

/// Returns each string with its index.
fn pairs_of(alloc: Global, strings: &[Vec<u8>]) -> Result<Vec<(&[u8], usize)>, AllocError>
    ensures { IfOk result (λ pairs. ArePairs (contents strings.now) pairs.items) }
{
    let mut pairs = Vec::new(alloc);
    for index in 0..strings.len() {
        pairs.push((strings[index].as_slice(), index))?;
    }
    Ok(pairs)
}
