//! Ranges by name.
ghost use Rattle.std.specs.Prelude.{◌≡◌, map};
ghost use Rattle.regress_base.specs.Table.{named};
ghost use Rattle.regress_properties.specs.Listed.{range_of};

/// Returns the range of the first entry with that name, or `None`. Linear in the number of entries.
pub(super) fn find_range(names: &[(&str, usize, usize)], name: &str) -> Option<(usize, usize)>
    ensures { result ≡ named name.now (map (λ n. range_of n.0.now n.1 n.2) names.now) }
{
    for entry in names {
        let (entry, from, to) = *entry;
        if entry == name {
            return Some((from, to));
        }
    }
    None
}
