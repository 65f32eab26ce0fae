//! What a template expands to at a match.
ghost use Rattle.std.specs.Prelude.{◌≡◌, ◌++◌, ◌∷◌, ◌≤◌, IfOk, length, map, string_bytes};
ghost use Rattle.regress_tree.specs.Inside.{IsCaptureInside};
ghost use Rattle.regress_found.specs.Found.{state_of, IsInside};
ghost use Rattle.regress_match.specs.Pattern.{capture_of};
ghost use Rattle.regress_replace.specs.Expansion.{any_named, captured_text, expand_piece, expansion, expansion_with};
ghost use Rattle.regress_replace.specs.Parsed.{piece_of};

use crate::names::{has_names, named_capture};
use crate::reference::{Reference, parse_reference};
use regress_match::{Group, Match};
use std::alloc::AllocError;

/// A match in a text, and the groups of the pattern.
#[derive(Clone, Copy)]
pub(crate) struct Context<'a> {
    pub(crate) text: &'a str,
    pub(crate) found: &'a Match,
    pub(crate) groups: &'a [Group],
}

impl<'a> Context<'a> {
    /// Appends what a template expands to.
    pub(crate) fn expand(self, template: &str, out: &mut String) -> Result<(), AllocError>
        requires { IsInside self.text.now self.found.now }
        ensures { IfOk result (λ _. string_bytes out.new ≡ string_bytes out.old
            ++ expansion self.entry.text.now self.entry.found.now (map capture_of self.entry.groups.now) template.now) }
    {
        let mut has_names = has_names(self.groups);
        let mut rest = template;
        while let Some((plain, after)) = rest.split_once('$') {
            out.push_str(plain)?;
            rest = self.expand_reference(after, &mut has_names, out)?;
        }
        out.push_str(rest)
    }

    /// Appends what the reference after a `$` expands to, or the `$` if there is none. Returns the rest of the template.
    fn expand_reference<'t>(
        self,
        after: &'t str,
        has_names: &mut bool,
        out: &mut String,
    ) -> Result<&'t str, AllocError>
        requires { IsInside self.text.now self.found.now }
        ensures expanded { IfOk result (λ rest. string_bytes out.new ++ expansion_with has_names.new self.entry.text.now self.entry.found.now
            (map capture_of self.entry.groups.now) rest.now ≡ string_bytes out.old ++ expansion_with has_names.old self.entry.text.now
            self.entry.found.now (map capture_of self.entry.groups.now) (36 ∷ after.now)) }
        ensures rest { IfOk result (λ rest. length rest.now ≤ length after.now) }
    {
        match parse_reference(after, self.found.group_count(), *has_names) {
            Some((reference, rest)) => {
                out.push_str(self.value(reference))?;
                Ok(rest)
            }
            None => {
                // A `<` without a `>` after it: no later `<` has one either.
                if after.starts_with('<') {
                    *has_names = false;
                }
                out.push_str("$")?;
                Ok(after)
            }
        }
    }

    /// Returns what a reference expands to.
    fn value(self, reference: Reference<'_>) -> &'a str
        requires { IsInside self.text.now self.found.now }
        ensures { result.now ≡ expand_piece self.entry.text.now self.entry.found.now (map capture_of self.entry.groups.now)
            (piece_of reference.entry) }
    {
        match reference {
            Reference::Dollar => "$",
            Reference::Before => &self.text[..self.found.start()],
            Reference::Matched => &self.text[self.found.start()..self.found.end()],
            Reference::After => &self.text[self.found.end()..],
            Reference::Group(id) => captured(self.text, self.found.group(id)),
            Reference::Named(name) => {
                captured(self.text, named_capture(self.found, self.groups, name))
            }
        }
    }
}

/// Returns the text that a group has captured, which is empty if the group is unset.
fn captured(text: &str, span: Option<(usize, usize)>) -> &str
    requires { IsCaptureInside text.now span }
    ensures { result.now ≡ captured_text text.now span }
{
    match span {
        Some((start, end)) => &text[start..end],
        None => "",
    }
}
