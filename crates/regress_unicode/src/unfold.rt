//! All code points with a given canonical form.
ghost use Rattle.std.specs.Prelude.{◌≡◌, ◌<◌, ◌≤◌, ◌==◌, ◌||◌, ◌/◌, ℕ, false, [], length, get_or, IsTrue, IfOk, OnOk};
ghost use Rattle.std.specs.Int.{bit_at};
ghost use Rattle.std.specs.List.{AllWithin, insert};
ghost use Rattle.regress_base.specs.Intervals.{code_point_max};
ghost use Rattle.regress_unicode.specs.FoldEntries.{FoldEntry, is_source, mapped};
ghost use Rattle.regress_unicode.specs.ValidEntries.{is_in_order, are_targets_in_range};
ghost use Rattle.regress_base.specs.Listing.{lists, is_ascending, IsListing};
ghost use Rattle.regress_base.specs.Table.{denotes};
ghost use Rattle.regress_unicode.specs.SourceIndex.{IsIndexOf, ListsSources};
ghost use Rattle.regress_unicode.specs.TableOf.{table_of};

use super::index::{GROUP_LEN, INDEXED_LEN, SourceIndex};
use super::{FoldRange, Tables, fold, uppercase};
use std::alloc::{AllocError, Global};

/// The maximum number of code points with the same canonical form.
const MOST: usize = 4;

/// Returns the code points with the same simple case folding as `c`, ascending, each once: at most four, `c` among
/// them.
///
/// # Preconditions
/// `c` is at most U+10FFFF.
///
/// # Errors
/// Returns [`AllocError`] if an allocation fails.
///
/// # Complexity
/// A binary search, and a scan of the entries that can map a code point to the result: one entry for most ASCII
/// characters, a few for most others, and at most all.
///
/// # Examples
/// ```
/// let tables = Tables::small(alloc)?;
/// // K, k and KELVIN SIGN
/// let points = unfold_char(alloc, 0x6B, &tables)?;
/// assert_eq!(rt; points.as_slice(), [0x4B, 0x6B, 0x212A].as_slice());
/// ```
pub fn unfold_char(alloc: Global, c: u32, tables: &Tables) -> Result<Vec<u32>, AllocError>
    requires { c ≤ code_point_max }
    ensures listing { IfOk result (λ list.
        IsListing (λ x. (table_of tables.now).fold x == (table_of tables.now).fold c) list.items) }
    ensures few { IfOk result (λ list. length list.items ≤ 4) }
{
    unfold_to(alloc, &tables.folds, &tables.fold_index, fold(c, tables))
}

/// Returns the code points with the same upper case as `c`, ascending, each once: at most four, `c` among them.
///
/// # Preconditions
/// `c` is at most U+10FFFF.
///
/// # Errors
/// Returns [`AllocError`] if an allocation fails.
///
/// # Complexity
/// That of [`unfold_char`].
pub fn unfold_uppercase_char(alloc: Global, c: u32, tables: &Tables) -> Result<Vec<u32>, AllocError>
    requires { c ≤ code_point_max }
    ensures listing { IfOk result (λ list.
        IsListing (λ x. (table_of tables.now).uppercase x == (table_of tables.now).uppercase c) list.items) }
    ensures few { IfOk result (λ list. length list.items ≤ 4) }
{
    unfold_to(
        alloc,
        &tables.uppers,
        &tables.upper_index,
        uppercase(c, tables),
    )
}

/// Returns the code points that a literal `c` matches, ascending, each once (ECMA-262, CharacterSetMatcher).
///
/// With `icase` these are the code points with the same canonical form as `c`: the same simple case folding if
/// `unicode`, else the same upper case. Without `icase` it is `c` alone.
///
/// # Preconditions
/// `c` is at most U+10FFFF.
///
/// # Errors
/// Returns [`AllocError`] if an allocation fails.
///
/// # Complexity
/// That of [`unfold_char`] with `icase`, and constant without.
///
/// # Examples
/// ```
/// let tables = Tables::small(alloc)?;
/// let folded = expand_code_point(alloc, 0x6B, true, true, &tables)?;
/// assert_eq!(rt; folded.as_slice(), [0x4B, 0x6B, 0x212A].as_slice());
/// // without the flag u: KELVIN SIGN is its own upper case
/// let upper = expand_code_point(alloc, 0x6B, true, false, &tables)?;
/// assert_eq!(rt; upper.as_slice(), [0x4B, 0x6B].as_slice());
/// ```
pub fn expand_code_point(
    alloc: Global,
    c: u32,
    icase: bool,
    unicode: bool,
    tables: &Tables,
) -> Result<Vec<u32>, AllocError>
    requires { c ≤ code_point_max }
    ensures listing { IfOk result (λ list.
        IsListing (denotes (table_of tables.now) icase unicode c) list.items) }
    ensures few { IfOk result (λ list. length list.items ≤ 4) }
{
    if !icase {
        Ok(vec![in alloc; c]?)
    } else if unicode {
        unfold_char(alloc, c, tables)
    } else {
        unfold_uppercase_char(alloc, c, tables)
    }
}

/// Returns the code points whose canonical form is `target`, which is its own canonical form. The entries ascend, and
/// so do the code points that they map to it.
fn unfold_to(
    alloc: Global,
    mappings: &[FoldRange],
    index: &SourceIndex,
    target: u32,
) -> Result<Vec<u32>, AllocError>
    requires index { IsIndexOf index.now mappings.now }
    requires code_point { target ≤ code_point_max }
    requires in_order { IsTrue (is_in_order mappings.now) }
    requires in_range { IsTrue (are_targets_in_range mappings.now) }
    requires own_mapped { mapped mappings.now target ≡ target }
    ensures { IfOk result (λ list. IsListing (λ x. mapped mappings.now x == target) list.items) }
{
    let mut list = Vec::with_capacity(alloc, MOST)?;
    push_sources(&mut list, mappings, index, target)?;
    insert_ordered(&mut list, target)?;
    Ok(list)
}

/// Appends the code points that the entries map to `target` to an empty list.
fn push_sources(
    list: &mut Vec<u32>,
    mappings: &[FoldRange],
    index: &SourceIndex,
    target: u32,
) -> Result<(), AllocError>
    requires empty { list.old.items ≡ [] }
    requires index { IsIndexOf index.now mappings.now }
    requires code_point { target ≤ code_point_max }
    requires in_order { IsTrue (is_in_order mappings.now) }
    requires in_range { IsTrue (are_targets_in_range mappings.now) }
    ensures { OnOk result (ListsSources list.new.items mappings.now (length mappings.now) target) }
{
    if index.is_first_alone(target) {
        return push_sources_in(list, mappings, 0, 1, target);
    }
    push_grouped_sources(list, mappings, index.groups(target), target)?;
    let end = mappings.len().max(INDEXED_LEN);
    push_sources_in(list, mappings, INDEXED_LEN, end, target)
}

/// Appends the code points that the first 256 entries map to `target`, from the groups whose bits are set.
fn push_grouped_sources(
    list: &mut Vec<u32>,
    mappings: &[FoldRange],
    groups: u64,
    target: u32,
) -> Result<(), AllocError>
    requires empty { list.old.items ≡ [] }
    requires groups { (c i : ℕ) (d : FoldEntry) → i < length mappings.now → i < 256 → (bit_at groups (i / 4) == 1) ≡ false →
        is_source (get_or mappings.now i d) target c ≡ false }
    requires code_point { target ≤ code_point_max }
    requires in_order { IsTrue (is_in_order mappings.now) }
    requires in_range { IsTrue (are_targets_in_range mappings.now) }
    ensures { OnOk result (ListsSources list.new.items mappings.now 256 target) }
{
    let mut left = groups;
    let mut end = 0;
    while left != 0 {
        let group = left.trailing_zeros();
        let start = group as usize * GROUP_LEN;
        end = start + GROUP_LEN;
        push_sources_in(list, mappings, start, end, target)?;
        left &= !(1 << group);
    }
    Ok(())
}

/// Appends the code points that the entries from `start` to before `end` map to `target`.
fn push_sources_in(
    list: &mut Vec<u32>,
    mappings: &[FoldRange],
    start: usize,
    end: usize,
    target: u32,
) -> Result<(), AllocError>
    requires order { start ≤ end }
    requires before { ListsSources list.old.items mappings.now start target }
    requires code_point { target ≤ code_point_max }
    requires in_order { IsTrue (is_in_order mappings.now) }
    requires in_range { IsTrue (are_targets_in_range mappings.now) }
    ensures { OnOk result (ListsSources list.new.items mappings.now end target) }
{
    for i in start..end.min(mappings.len()) {
        if let Some(source) = mappings[i].source(target) {
            list.push(source)?;
        }
    }
    Ok(())
}

/// Inserts the number in order, unless it is in the list.
fn insert_ordered(list: &mut Vec<u32>, c: u32) -> Result<(), AllocError>
    requires { IsTrue (is_ascending list.old.items) }
    ensures ascending { OnOk result (IsTrue (is_ascending list.new.items)) }
    ensures members { OnOk result ((x : ℕ) →
        lists list.new.items x ≡ (lists list.old.items x || (x == c))) }
{
    let position = lower_bound(list, c);
    if position < list.len() && list[position] == c {
        return Ok(());
    }
    put(list, position, c)
}

/// Inserts the number at an index. At the end of the list no element moves.
fn put(list: &mut Vec<u32>, position: usize, c: u32) -> Result<(), AllocError>
    requires { position ≤ length list.old.items }
    ensures { OnOk result (list.new.items ≡ insert list.old.items position c) }
{
    if position == list.len() {
        list.push(c)?;
    } else {
        list.insert(position, c)?;
    }
    Ok(())
}

/// Returns the least index with a number that is at least `c`, or the length of the list. Linear.
fn lower_bound(list: &[u32], c: u32) -> usize
    ensures bound { result ≤ length list.now }
    ensures below { AllWithin (λ x. x < c) list.now 0 result }
    ensures from { result < length list.now → (d : ℕ) → c ≤ get_or list.now result d }
{
    let mut position = 0;
    while position < list.len() && list[position] < c {
        position += 1;
    }
    position
}
