//! Groups by name, in a list of groups.
ghost use Rattle.std.specs.Prelude.{◌≡◌, map, option_map, string_bytes};
ghost use Rattle.regress_found.specs.Found.{state_of};
ghost use Rattle.regress_match.specs.Names.{is_named, named_span};
ghost use Rattle.regress_match.specs.Pattern.{capture_of};
ghost use Rattle.regress_replace.specs.Expansion.{any_named};

use regress_base::types::CaptureGroupName;
use regress_match::{Group, Match};

/// Returns whether a group has a name.
pub(crate) fn has_names(groups: &[Group]) -> bool
    ensures { result ≡ any_named (map capture_of groups.now) }
{
    for group in groups {
        if group.name.is_some() {
            return true;
        }
    }
    false
}

/// Returns the span that the group with a name has captured last.
///
/// If several groups share the name it is the first one that is set. The result is `None` if none is set, or if no group
/// has this name.
pub fn named_capture(found: &Match, groups: &[Group], name: &str) -> Option<(usize, usize)>
    ensures { result ≡ named_span name.now (state_of found.now).captures (map capture_of groups.now) }
{
    for group in groups {
        if is_named(&group.name, name) {
            let span = found.group(usize::from(group.id));
            if span.is_some() {
                return span;
            }
        }
    }
    None
}

fn is_named(own: &Option<CaptureGroupName>, name: &str) -> bool
    ensures { result ≡ is_named name.now (option_map string_bytes own.now) }
{
    match own {
        Some(own) => own.as_str() == name,
        None => false,
    }
}
