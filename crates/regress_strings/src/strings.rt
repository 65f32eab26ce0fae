//! Strings, for finding those that occur at a position of a text.
ghost use Rattle.std.specs.Prelude.{◌≡◌, length};
ghost use Rattle.regress_strings.specs.Keys.{AreKeys, AreKeys-prop};
ghost use Rattle.regress_strings.specs.Links.{AreLinks, AreLinks-prop};
ghost use Rattle.regress_strings.specs.Ordered.{place_count, string_of};

use crate::keys::keys_of;
use crate::link::Link;
use crate::links::{greatest_index, links_of};
use crate::order::Order;
use std::alloc::{AllocError, Global};

/// Strings of bytes, for finding those that occur at a position of a text.
///
/// The index of a string is its place in the list that they were made of. Strings can be equal or empty.
///
/// # Examples
/// ```
/// let mut list = Vec::new(alloc);
/// for name in ["Jan", "January", "Jun"] {
///     list.push(name.as_bytes().to_vec(alloc)?)?;
/// }
/// let strings = Strings::new(alloc, list)?;
/// ```
#[derive(Drop)]
pub struct Strings {
    order: Order,
    /// The key of the string at each place of the order.
    keys: Vec<u64>,
    /// The link of each place of the order.
    links: Vec<Link>,
    ghost keyed: { AreKeys (string_of order) keys.items } by { AreKeys-prop (string_of order) keys.items },
    ghost each_key: { length keys.items ≡ place_count order },
    ghost linked: { AreLinks (string_of order) links.items } by { AreLinks-prop (string_of order) links.items },
    ghost each: { length links.items ≡ place_count order },
}

impl Strings {
    ghost use Rattle.std.specs.Prelude.{◌↔◌, ◌≤◌, [], IfOk, IsTrue};
    ghost use Rattle.regress_strings.specs.Contents.{contents};
    ghost use Rattle.regress_strings.specs.Strings.{IsLastAt, strings_of};

    /// Returns strings to be found.
    ///
    /// # Complexity
    /// O(n log n) comparisons of two strings for n strings.
    ///
    /// # Errors
    /// Returns [`AllocError`] if an allocation fails.
    pub fn new(alloc: Global, strings: Vec<Vec<u8>>) -> Result<Strings, AllocError>
        ensures { IfOk result (λ s. strings_of s ≡ contents strings.items) }
    {
        let order = Order::new(alloc, strings)?;
        let keys = keys_of(alloc, &order)?;
        let links = links_of(alloc, &order)?;
        Ok(Strings { order, keys, links })
    }

    /// Returns the number of the strings.
    ///
    /// # Examples
    /// ```
    /// assert_eq!(rt; strings.len(), 3);
    /// ```
    pub fn len(&self) -> usize
        ensures { result ≡ length (strings_of self.now) }
    {
        self.order.strings.len()
    }

    /// Returns whether there is no string.
    ///
    /// # Examples
    /// ```
    /// assert!(rt; !strings.is_empty());
    /// ```
    pub fn is_empty(&self) -> bool
        ensures { IsTrue result ↔ (strings_of self.now ≡ []) }
    {
        self.order.strings.is_empty()
    }

    /// Returns the greatest index below `before` of a string that occurs in `text` at the byte offset `position`, or `None` if
    /// none does.
    ///
    /// # Complexity
    /// For n strings O(log n) comparisons with the text, one for each string that the last string before the text begins
    /// with, and O(log n) for each of the different strings that occur there.
    ///
    /// # Preconditions
    /// `position` is at most the length of `text`.
    ///
    /// # Examples
    /// The strings are `Jan`, `January` and `Jun`.
    /// ```
    /// let text = "in January".as_bytes();
    /// assert_eq!(rt; strings.last_at(text, 3, 3), Some(1));
    /// assert_eq!(rt; strings.last_at(text, 3, 1), Some(0));
    /// assert_eq!(rt; strings.last_at(text, 0, 3), None);
    /// ```
    pub fn last_at(&self, text: &[u8], position: usize, before: usize) -> Option<usize>
        requires { position ≤ length text.now }
        ensures { IsLastAt (strings_of self.now) text.now position before result }
    {
        let last = greatest_index(
            &self.order,
            &self.keys,
            &self.links,
            &text[position..],
            before,
        );
        if last == 0 { None } else { Some(last - 1) }
    }
}
