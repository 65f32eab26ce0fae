//! The first bytes of strings as numbers, which decide most comparisons.
ghost use Rattle.std.specs.Prelude.{◌≡◌, ◌<◌, IfOk, length, slice_index};
ghost use Rattle.regress_strings.specs.Keys.{AreBytes, AreKeys, key_of};
ghost use Rattle.regress_strings.specs.Order.{is_after};
ghost use Rattle.regress_strings.specs.Ordered.{IsCountAtMost, place_count, string_of};

use crate::order::Order;
use std::alloc::{AllocError, Global};

/// Returns the key of the string at each place.
///
/// # Errors
/// Returns [`AllocError`] if an allocation fails.
pub(crate) fn keys_of(alloc: Global, order: &Order) -> Result<Vec<u64>, AllocError>
    ensures keys { IfOk result (λ keys. AreKeys (string_of order.now) keys.items) }
    ensures each { IfOk result (λ keys. length keys.items ≡ place_count order.now) }
{
    let mut keys = Vec::new(alloc);
    for place in 0..order.len() {
        keys.push(key_of(order.string(place)))?;
    }
    Ok(keys)
}

/// Returns the number of the strings that do not come after `text` in lexicographic order.
///
/// # Complexity
/// O(log n) comparisons of numbers for n strings, and of the text with those strings that have its key.
pub(crate) fn count_at_most(order: &Order, keys: &[u64], text: &[u8]) -> usize
    requires keys { AreKeys (string_of order.now) keys.now }
    requires each { length keys.now ≡ place_count order.now }
    ensures { IsCountAtMost order.now text.now result }
{
    let key = key_of(text);
    let mut low = 0;
    let mut high = order.len();
    while low < high {
        let middle = low + (high - low) / 2;
        if is_after(order, keys, middle, text, key) {
            high = middle;
        } else {
            low = middle + 1;
        }
    }
    low
}

/// Returns whether the string at a place comes after `text`, which has this key.
fn is_after(order: &Order, keys: &[u64], place: usize, text: &[u8], key: u64) -> bool
    requires keys { AreKeys (string_of order.now) keys.now }
    requires each { length keys.now ≡ place_count order.now }
    requires in_range { place < place_count order.now }
    requires bytes { AreBytes text.now }
    requires key { key ≡ key_of text.now }
    ensures { result ≡ is_after (string_of order.now place) text.now }
{
    let here = keys[place];
    if here == key {
        order.string(place).cmp(&text).is_gt()
    } else {
        here > key
    }
}

/// Returns the first 8 bytes of a string as a number, in which the first is the most significant, with zeros after the end.
fn key_of(string: &[u8]) -> u64
    ensures key { result ≡ key_of string.now }
    ensures bytes { AreBytes string.now }
{
    let mut key = 0;
    for place in 0..8 {
        key = key * 256 + u64::from(byte_at(string, place));
    }
    key
}

/// Returns the byte at `place`, or 0 after the end.
fn byte_at(string: &[u8], place: usize) -> u8
    ensures { result ≡ slice_index string.now place }
{
    match string.get(place) {
        Some(byte) => *byte,
        None => 0,
    }
}
