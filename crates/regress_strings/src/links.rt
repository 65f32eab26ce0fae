//! The links of an order of strings.
ghost use Rattle.std.specs.Prelude.{◌≡◌, ◌<◌, ◌≤◌, IfOk, length};
ghost use Rattle.regress_strings.specs.Keys.{AreKeys};
ghost use Rattle.regress_strings.specs.Links.{AreLinks, IsLink};
ghost use Rattle.regress_strings.specs.Ordered.{IsGreatest, IsPrefixCount, NoneAfter, place_count, string_of};

use crate::keys::count_at_most;
use crate::link::Link;
use crate::order::Order;
use std::alloc::{AllocError, Global};

/// Returns the link of each place.
///
/// # Complexity
/// O(n) comparisons of two strings for n strings.
///
/// # Errors
/// Returns [`AllocError`] if an allocation fails.
pub(crate) fn links_of(alloc: Global, order: &Order) -> Result<Vec<Link>, AllocError>
    ensures links { IfOk result (λ links. AreLinks (string_of order.now) links.items) }
    ensures each { IfOk result (λ links. length links.items ≡ place_count order.now) }
{
    let mut links = Vec::new(alloc);
    while links.len() < order.len() {
        links.push(next_link(order, &links))?;
    }
    Ok(links)
}

/// Returns the link of the place after those that have their links.
fn next_link(order: &Order, links: &[Link]) -> Link
    requires some { length links.now < place_count order.now }
    requires links { AreLinks (string_of order.now) links.now }
    ensures { IsLink (string_of order.now) (length links.now) result }
{
    let place = links.len();
    let string = order.string(place);
    if place > 0 && order.string(place - 1) == string {
        return links[place - 1];
    }
    Link {
        first: place,
        prefix: prefix_count(order, links, string, place),
    }
}

/// Returns one more than the greatest index below `before` of a string that `text` begins with, or 0 if there is none.
///
/// # Complexity
/// For n strings O(log n) comparisons with the text, one for each string that the last string before the text begins with,
/// and O(log n) for each of the different strings that the text begins with.
pub(crate) fn greatest_index(
    order: &Order,
    keys: &[u64],
    links: &[Link],
    text: &[u8],
    before: usize,
) -> usize
    requires keys { AreKeys (string_of order.now) keys.now }
    requires each_key { length keys.now ≡ place_count order.now }
    requires links { AreLinks (string_of order.now) links.now }
    requires each { length links.now ≡ place_count order.now }
    ensures { IsGreatest order.now text.now before result }
{
    let mut count = prefix_count(order, links, text, count_at_most(order, keys, text));
    let mut greatest = 0;
    while count > 0 {
        let link = links[count - 1];
        greatest = greatest.max(order.last_below(link.first, count, before));
        count = link.prefix;
    }
    greatest
}

/// Returns one more than the last place below `count` of a string that `text` begins with, or 0 if there is none.
///
/// # Complexity
/// A comparison for each string that the last string below `count` begins with.
///
/// # Preconditions
/// The strings below `count` do not come after `text`.
fn prefix_count(order: &Order, links: &[Link], text: &[u8], count: usize) -> usize
    requires in_range { count ≤ length links.now }
    requires ordered { length links.now ≤ place_count order.now }
    requires links { AreLinks (string_of order.now) links.now }
    requires at_most { NoneAfter (string_of order.now) text.now count }
    ensures { IsPrefixCount (string_of order.now) text.now count result }
{
    let mut found = count;
    while found > 0 && !text.starts_with(order.string(found - 1)) {
        found = links[found - 1].prefix;
    }
    found
}
