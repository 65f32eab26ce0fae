//! Splitting a text at matches.
ghost use Rattle.std.specs.Prelude.{◌≡◌, ◌≤◌, ◌*◌, All, ℕ, List, IfErr, IfOk, None, map};
ghost use Rattle.std.specs.Borrow.{Bor};
ghost use Rattle.std.specs.Vec.{vec_capacity};
ghost use Rattle.regress_found.specs.Found.{IsInside};
ghost use Rattle.regress_found.specs.Repeated.{AreAllMatches};
ghost use Rattle.regress_replace.specs.Order.{AreInOrder};
ghost use Rattle.regress_replace.specs.Split.{part_texts};
ghost use Rattle.regress.specs.Compiled.{outcomes_of};
ghost use Rattle.regress.specs.Costs.{AllCostLimit, factor_in};
ghost use Rattle.regress.specs.Memory.{AllNeedMore, match_bytes, memory_of};
ghost use Rattle.regress.specs.Replaced.{AreFirstMatches, ArePartSpans, IsSplit, IsSplitWithCaptures, IsSplitWithin};
ghost use Rattle.regress.specs.declared.failure.SearchError.TheVariants.{OutOfSteps, TooMuchMemory};

use crate::failure::SearchError;
use crate::pattern::Regex;
use regress_found::push_within;
use regress_match::Match as Found;
use regress_replace::{split_at_matches, split_spans, split_with_captures};
use std::alloc::Global;

impl Regex {
    /// Returns the pieces of `text` before, between and after its non-overlapping matches, one more than there are
    /// matches.
    ///
    /// The pieces, with the text of a match after each but the last, are the text. An empty match splits too: at the
    /// start of the text the first piece is empty. [`Regex::split_with_captures`] splits as JavaScript does.
    ///
    /// # Errors
    /// As for [`Regex::find_all`].
    ///
    /// # Examples
    /// ```
    /// let regex = Regex::new(alloc, ",\\s*")?;
    /// let pieces = regex.split(alloc, "a, b,c,")?;
    /// assert_eq!(rt; pieces.as_slice(), ["a", "b", "c", ""].as_slice());
    /// let pieces = regex.splitn(alloc, "a, b,c", 2)?;
    /// assert_eq!(rt; pieces.as_slice(), ["a", "b,c"].as_slice());
    /// ```
    pub fn split<'a>(&self, alloc: Global, text: &'a str) -> Result<Vec<&'a str>, SearchError>
        ensures split { IfOk result (λ pieces. IsSplit text.now (outcomes_of self.now text.now)
            (map (λ (piece : Bor (List ℕ)). piece.now) pieces.items)) }
        ensures linear { IfErr result (λ error. error ≡ OutOfSteps → factor_in self.now text.now ≡ None) }
        ensures costs { IfErr result (λ error. error ≡ OutOfSteps → AllCostLimit self.now text.now 0) }
        ensures too_much { IfErr result (λ error. error ≡ TooMuchMemory → AllNeedMore self.now text.now 0) }
    {
        let matches = self.all_matches(alloc, text)?;
        Ok(split_at_matches(alloc, text, &matches)?)
    }

    /// Returns the pieces of `text` before, between and after its matches as [`Regex::split`] does, but at most `limit`
    /// pieces: the last one is the rest of the text.
    ///
    /// # Errors
    /// As for [`Regex::find_all`]. No further match is searched for than those that split the text.
    pub fn splitn<'a>(
        &self,
        alloc: Global,
        text: &'a str,
        limit: usize,
    ) -> Result<Vec<&'a str>, SearchError>
        ensures split { IfOk result (λ pieces. IsSplitWithin text.now (outcomes_of self.now text.now) limit
            (map (λ (piece : Bor (List ℕ)). piece.now) pieces.items)) }
        ensures linear { IfErr result (λ error. error ≡ OutOfSteps → factor_in self.now text.now ≡ None) }
        ensures costs { IfErr result (λ error. error ≡ OutOfSteps → AllCostLimit self.now text.now 0) }
        ensures too_much { IfErr result (λ error. error ≡ TooMuchMemory → AllNeedMore self.now text.now 0) }
    {
        if limit == 0 {
            return Ok(Vec::new(alloc));
        }
        let matches = self.first_matches(alloc, text, limit - 1)?;
        Ok(split_at_matches(alloc, text, &matches)?)
    }

    /// Returns the parts of `text` as by `split` of ECMA-262, with the captures of each match that splits the text.
    ///
    /// An empty match at the start of the text, at its end, or at the end of the match before it does not split. The
    /// part before a match is followed by the captures of its groups, `None` for a group that is unset. At most `limit`
    /// parts are returned, all without a limit. An empty text has no parts if it has a match, and else one.
    ///
    /// # Errors
    /// As for [`Regex::find_all`].
    ///
    /// # Examples
    /// ```
    /// let regex = Regex::new(alloc, "(-)|\\+")?;
    /// let parts = regex.split_with_captures(alloc, "1-2+3", None)?;
    /// let expected = [Some("1"), Some("-"), Some("2"), None, Some("3")];
    /// assert_eq!(rt; parts.as_slice(), expected.as_slice());
    /// ```
    pub fn split_with_captures<'a>(
        &self,
        alloc: Global,
        text: &'a str,
        limit: Option<usize>,
    ) -> Result<Vec<Option<&'a str>>, SearchError>
        ensures split { IfOk result (λ parts. IsSplitWithCaptures text.now (outcomes_of self.now text.now) limit (part_texts parts.items)) }
        ensures linear { IfErr result (λ error. error ≡ OutOfSteps → factor_in self.now text.now ≡ None) }
        ensures costs { IfErr result (λ error. error ≡ OutOfSteps → AllCostLimit self.now text.now 0) }
        ensures too_much { IfErr result (λ error. error ≡ TooMuchMemory → AllNeedMore self.now text.now 0) }
    {
        let matches = self.all_matches(alloc, text)?;
        Ok(split_with_captures(alloc, text, &matches, limit)?)
    }

    /// Returns the spans of the parts that [`Regex::split_with_captures`] returns, each as its start and its end, `None` for
    /// a group that is unset.
    ///
    /// # Errors
    /// As for [`Regex::find_all`].
    pub fn split_spans(
        &self,
        alloc: Global,
        text: &str,
        limit: Option<usize>,
    ) -> Result<Vec<Option<(usize, usize)>>, SearchError>
        ensures split { IfOk result (λ spans. ArePartSpans text.now (outcomes_of self.now text.now) limit spans.items) }
        ensures linear { IfErr result (λ error. error ≡ OutOfSteps → factor_in self.now text.now ≡ None) }
        ensures costs { IfErr result (λ error. error ≡ OutOfSteps → AllCostLimit self.now text.now 0) }
        ensures too_much { IfErr result (λ error. error ≡ TooMuchMemory → AllNeedMore self.now text.now 0) }
    {
        let matches = self.all_matches(alloc, text)?;
        Ok(split_spans(alloc, text.len(), &matches, limit)?)
    }

    /// Returns the first `count` matches in `text`, or all if there are fewer.
    pub(crate) fn first_matches(
        &self,
        alloc: Global,
        text: &str,
        count: usize,
    ) -> Result<Vec<Found>, SearchError>
        ensures first { IfOk result (λ first. AreFirstMatches text.now (outcomes_of self.now text.now) count first.items) }
        ensures inside { IfOk result (λ first. All (IsInside text.now) first.items) }
        ensures order { IfOk result (λ first. AreInOrder 0 first.items) }
        ensures held { IfOk result (λ first. match_bytes self.now * vec_capacity first ≤ memory_of self.now) }
        ensures linear { IfErr result (λ error. error ≡ OutOfSteps → factor_in self.now text.now ≡ None) }
        ensures costs { IfErr result (λ error. error ≡ OutOfSteps → AllCostLimit self.now text.now 0) }
        ensures too_much { IfErr result (λ error. error ≡ TooMuchMemory → AllNeedMore self.now text.now 0) }
    {
        let most = self.matcher.most_matches();
        let mut first = Vec::new(alloc);
        let mut matches = self.find_iter(alloc, text);
        while first.len() < count {
            match matches.next() {
                Some(found) => push_within(&mut first, found?.found, most)?,
                None => return Ok(first),
            }
        }
        Ok(first)
    }
}
