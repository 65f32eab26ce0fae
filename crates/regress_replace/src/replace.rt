//! Replacing matches by a template.
ghost use Rattle.std.specs.Prelude.{◌≡◌, All, IfOk, map, string_bytes};
ghost use Rattle.regress_found.specs.Found.{IsInside};
ghost use Rattle.regress_match.specs.Pattern.{capture_of};
ghost use Rattle.regress_replace.specs.Expansion.{expansion};
ghost use Rattle.regress_replace.specs.Order.{AreInOrder};
ghost use Rattle.regress_replace.specs.Replaced.{replaced};

use crate::context::Context;
use regress_match::{Group, Match};
use std::alloc::{AllocError, Global};

/// Returns the expansion of `template` at a match in `text`, as by `replace` of ECMA-262 (GetSubstitution).
///
/// These references are expanded, and everything else is taken as it is:
///
/// - `$$` is a `$`, `$&` the match, `` $` `` the text before it, and `$'` the text after it.
/// - `$1` to `$99` are the capture of the group with this number. A number of one digit may begin with a 0. A second
///   digit is taken only if the pattern has as many groups. If it has no group with the number, the `$` is no reference.
/// - `$<name>` is the capture of the group with this name, of the set one if several groups share it. It is empty if no
///   group has the name. If no group has a name at all, or no `>` follows, the `$` is no reference.
///
/// The capture of a group that is unset is empty. `groups` are the groups of the pattern, as `groups` of `regress_match`
/// returns them.
///
/// # Preconditions
/// The match and its groups are inside `text`, as those of well formed trees are.
///
/// # Errors
/// Returns [`AllocError`] if an allocation fails. No template is rejected.
///
/// # Complexity
/// The time is linear in the length of the template and of the result, and in the number of groups for each `$<name>`.
pub fn expand(
    alloc: Global,
    template: &str,
    text: &str,
    found: &Match,
    groups: &[Group],
) -> Result<String, AllocError>
    requires { IsInside text.now found.now }
    ensures { IfOk result (λ expanded. string_bytes expanded ≡ expansion text.now found.now (map capture_of groups.now) template.now) }
{
    let mut out = String::new(alloc);
    let context = Context {
        text,
        found,
        groups,
    };
    context.expand(template, &mut out)?;
    Ok(out)
}

/// Returns `text` with each of the matches replaced by the expansion of `template`, as [`expand`] states. The rest of the
/// text is unchanged.
///
/// # Preconditions
/// The matches and their groups are inside `text`, and each match starts at the end of the one before it or later, as
/// those that `find_all` returns for a well formed tree.
///
/// # Errors
/// Returns [`AllocError`] if an allocation fails.
///
/// # Complexity
/// The time is linear in the length of `text`, and for each match as [`expand`] states.
pub fn replace_matches(
    alloc: Global,
    text: &str,
    matches: &[Match],
    template: &str,
    groups: &[Group],
) -> Result<String, AllocError>
    requires inside { All (IsInside text.now) matches.now }
    requires order { AreInOrder 0 matches.now }
    ensures { IfOk result (λ out. string_bytes out ≡ replaced text.now (λ m. expansion text.now m (map capture_of groups.now) template.now) 0
        matches.now) }
{
    let mut out = String::new(alloc);
    let mut from = 0;
    for found in matches {
        out.push_str(&text[from..found.start()])?;
        let context = Context {
            text,
            found,
            groups,
        };
        context.expand(template, &mut out)?;
        from = found.end();
    }
    out.push_str(&text[from..])?;
    Ok(out)
}
