//! Replacing matches in a text.
ghost use Rattle.std.specs.Prelude.{◌≡◌, ◌⊎◌, All, IfErr, IfOk, None, map, string_bytes};
ghost use Rattle.regress_found.specs.Found.{IsInside};
ghost use Rattle.regress_replace.specs.Expansion.{expansion};
ghost use Rattle.regress_replace.specs.Order.{AreInOrder};
ghost use Rattle.regress.specs.Compiled.{groups_of, outcomes_of, match_of};
ghost use Rattle.regress.specs.Costs.{AllAreTooCostly, AllCostLimit, CostsLimit, IsTooCostly, factor_in, find_factor_in};
ghost use Rattle.regress.specs.Memory.{AllNeedMore, SearchNeedsMore};
ghost use Rattle.regress.specs.Replaced.{HasReturned, IsReplacedBy, ReplacesAll, ReplacesAllWith, ReplacesFirst, ReplacesFirstN, ReplacesFirstWith};
ghost use Rattle.regress.specs.declared.failure.SearchError.TheVariants.{OutOfSteps, TooMuchMemory};

use crate::failure::SearchError;
use crate::found::Match;
use crate::pattern::Regex;
use regress_replace::replace_matches;
use std::alloc::Global;
use std::slice;

impl Regex {
    /// Returns `text` with its leftmost match replaced by the expansion of `template`, and `text` if there is none.
    ///
    /// A template is that of `replace` of ECMA-262: `$$` is a `$`, `$&` the match, `` $` `` the text before it, `$'`
    /// the text after it, `$1` to `$99` are the captures of groups, and `$<name>` that of the group with this name, as
    /// `expand` of `regress_replace` states. No template is rejected.
    ///
    /// # Errors
    /// As for [`Regex::find_at`].
    ///
    /// # Examples
    /// ```
    /// let regex = Regex::new(alloc, "(\\w+) (\\w+)")?;
    /// let swapped = regex.replace(alloc, "one two three four", "$2 $1")?;
    /// assert_eq!(rt; swapped.as_str(), "two one three four");
    /// let swapped = regex.replace_all(alloc, "one two three four", "$2 $1")?;
    /// assert_eq!(rt; swapped.as_str(), "two one four three");
    /// ```
    pub fn replace(&self, alloc: Global, text: &str, template: &str) -> Result<String, SearchError>
        ensures replaced { IfOk result (λ out. ReplacesFirst text.now (outcomes_of self.now text.now)
            (λ m. expansion text.now m (groups_of self.now) template.now) (string_bytes out)) }
        ensures linear { IfErr result (λ error. error ≡ OutOfSteps → factor_in self.now text.now ≡ None) }
        ensures bounded { IfErr result (λ error. error ≡ OutOfSteps → find_factor_in self.now text.now ≡ None) }
        ensures costs { IfErr result (λ error. error ≡ OutOfSteps → CostsLimit self.now text.now 0) }
        ensures too_much { IfErr result (λ error. error ≡ TooMuchMemory → SearchNeedsMore self.now text.now 0) }
    {
        match self.find(alloc, text)? {
            Some(m) => Ok(replace_matches(
                alloc,
                text,
                slice::from_ref(&m.found),
                template,
                &self.groups,
            )?),
            None => Ok(String::from_str(alloc, text)?),
        }
    }

    /// Returns `text` with each of its non-overlapping matches replaced by the expansion of `template`, as
    /// [`Regex::replace`] states.
    ///
    /// # Errors
    /// As for [`Regex::find_all`].
    ///
    /// # Complexity
    /// The time is that of [`Regex::find_all`], and then linear in the length of `text` and of the result.
    pub fn replace_all(
        &self,
        alloc: Global,
        text: &str,
        template: &str,
    ) -> Result<String, SearchError>
        ensures replaced { IfOk result (λ out. ReplacesAll text.now (outcomes_of self.now text.now)
            (λ m. expansion text.now m (groups_of self.now) template.now) (string_bytes out)) }
        ensures linear { IfErr result (λ error. error ≡ OutOfSteps → factor_in self.now text.now ≡ None) }
        ensures costs { IfErr result (λ error. error ≡ OutOfSteps → AllCostLimit self.now text.now 0) }
        ensures too_much { IfErr result (λ error. error ≡ TooMuchMemory → AllNeedMore self.now text.now 0) }
    {
        let matches = self.all_matches(alloc, text)?;
        Ok(replace_matches(alloc, text, &matches, template, &self.groups)?)
    }

    /// Returns `text` with its first `limit` non-overlapping matches replaced by the expansion of `template`, as
    /// [`Regex::replace`] states, or all if there are fewer; and how many were replaced.
    ///
    /// # Errors
    /// As for [`Regex::find_all`]. No further match is searched for than those that are replaced.
    ///
    /// # Examples
    /// ```
    /// let regex = Regex::new(alloc, "[a-z]")?;
    /// let (replaced, count) = regex.replacen(alloc, "a-b-c", "<$&>", 2)?;
    /// assert_eq!(rt; replaced.as_str(), "<a>-<b>-c");
    /// assert_eq!(rt; count, 2);
    /// ```
    pub fn replacen(
        &self,
        alloc: Global,
        text: &str,
        template: &str,
        limit: usize,
    ) -> Result<(String, usize), SearchError>
        ensures replaced { IfOk result (λ out. ReplacesFirstN text.now (outcomes_of self.now text.now) limit
            (λ m. expansion text.now m (groups_of self.now) template.now) (string_bytes out.0) out.1) }
        ensures linear { IfErr result (λ error. error ≡ OutOfSteps → factor_in self.now text.now ≡ None) }
        ensures costs { IfErr result (λ error. error ≡ OutOfSteps → AllCostLimit self.now text.now 0) }
        ensures too_much { IfErr result (λ error. error ≡ TooMuchMemory → AllNeedMore self.now text.now 0) }
    {
        let matches = self.first_matches(alloc, text, limit)?;
        let replaced = replace_matches(alloc, text, &matches, template, &self.groups)?;
        Ok((replaced, matches.len()))
    }

    /// Returns `text` with its leftmost match replaced by what `replacer` returns for it, and `text` if there is none.
    ///
    /// # Preconditions
    /// `replacer` has no precondition: it may be called with any match.
    ///
    /// # Errors
    /// As for [`Regex::find_at`], and the error that `replacer` returns.
    ///
    /// # Examples
    /// ```
    /// let regex = Regex::new(alloc, "a+")?;
    /// let first = regex.replace_with(alloc, "aab", |m| Ok(format!(in alloc; "{}", m.end())?))?;
    /// assert_eq!(rt; first.as_str(), "2b");
    /// ```
    pub fn replace_with<F: FnMut(&Match) -> Result<String, SearchError>>(
        &self,
        alloc: Global,
        text: &str,
        replacer: F,
    ) -> Result<String, SearchError>
        requires { F.IsAlwaysCallable replacer }
        ensures replaced { IfOk result (λ out. ReplacesFirstWith text.now (outcomes_of self.now text.now) F.FnMut replacer (string_bytes out)) }
        ensures failed { IfErr result (λ error. error ≡ OutOfSteps → IsTooCostly self.now text.now 0 ⊎ HasReturned F.FnMut replacer error) }
        ensures too_much { IfErr result (λ error. error ≡ TooMuchMemory → SearchNeedsMore self.now text.now 0 ⊎ HasReturned F.FnMut replacer error) }
    {
        match self.find(alloc, text)? {
            Some(m) => replace_each(alloc, text, slice::from_ref(&m), replacer),
            None => Ok(String::from_str(alloc, text)?),
        }
    }

    /// Returns `text` with each of its non-overlapping matches replaced by what `replacer` returns for it. `replacer`
    /// is called once on each match, from left to right.
    ///
    /// # Preconditions
    /// `replacer` has no precondition: it may be called with any match.
    ///
    /// # Errors
    /// As for [`Regex::find_all`], and the error that `replacer` returns.
    ///
    /// # Examples
    /// ```
    /// let regex = Regex::new(alloc, "[a-z]")?;
    /// let mut count = 0_u8;
    /// let numbered = regex.replace_all_with(alloc, "a-b", |_| {
    ///     count = count.wrapping_add(1);
    ///     Ok(format!(in alloc; "{count}")?)
    /// })?;
    /// assert_eq!(rt; numbered.as_str(), "1-2");
    /// ```
    pub fn replace_all_with<F: FnMut(&Match) -> Result<String, SearchError>>(
        &self,
        alloc: Global,
        text: &str,
        replacer: F,
    ) -> Result<String, SearchError>
        requires { F.IsAlwaysCallable replacer }
        ensures replaced { IfOk result (λ out. ReplacesAllWith text.now (outcomes_of self.now text.now) F.FnMut replacer (string_bytes out)) }
        ensures failed { IfErr result (λ error. error ≡ OutOfSteps → AllAreTooCostly self.now text.now 0 ⊎ HasReturned F.FnMut replacer error) }
        ensures too_much { IfErr result (λ error. error ≡ TooMuchMemory → AllNeedMore self.now text.now 0 ⊎ HasReturned F.FnMut replacer error) }
    {
        let matches = self.find_all(alloc, text)?;
        replace_each(alloc, text, &matches, replacer)
    }
}

/// Returns `text` with each of the matches replaced by what `replacer` returns for it.
fn replace_each<F: FnMut(&Match) -> Result<String, SearchError>>(
    alloc: Global,
    text: &str,
    matches: &[Match],
    mut replacer: F,
) -> Result<String, SearchError>
    requires callable { F.IsAlwaysCallable replacer }
    requires inside { All (λ m. IsInside text.now (match_of m)) matches.now }
    requires order { AreInOrder 0 (map match_of matches.now) }
    ensures replaced { IfOk result (λ out. IsReplacedBy F.FnMut replacer text.now matches.now (string_bytes out)) }
    ensures failed { IfErr result (λ error. error ≡ OutOfSteps → HasReturned F.FnMut replacer error) }
    ensures too_much { IfErr result (λ error. error ≡ TooMuchMemory → HasReturned F.FnMut replacer error) }
{
    let mut out = String::new(alloc);
    let mut from = 0;
    for found in matches {
        out.push_str(&text[from..found.start()])?;
        let replacement = replacer(found)?;
        out.push_str(&replacement)?;
        from = found.end();
    }
    out.push_str(&text[from..])?;
    Ok(out)
}
