//! Compiled regular expressions.
ghost use Rattle.regress_front.specs.WellFormed.{IsWellFormed};
ghost use Rattle.regress_match.specs.Pattern.{matcher_tree};

use crate::compiling::optimized;
use crate::exact::{is_exact_source, is_exact_text};
use crate::failure::{Error, SearchError};
use crate::found::Match;
use crate::groups::GroupNames;
use crate::letters::parse_flags;
use crate::limits::Options;
use crate::search::{self, Matches};
use crate::searcher::Searcher;
use crate::source::text_of;
use regress_found::push_within;
use regress_front::parse::node_bound;
use regress_front::types::Flags;
use regress_front::unicode::Tables;
use regress_front::util::code_points;
use regress_match::{Group, Limits, Match as Found, Matcher, Nonlinear, groups};
use regress_ucd::unicode_tables;
use std::alloc::Global;
use std::fmt::{self, Display, Formatter, Write};
use std::sync::Arc;

/// A compiled regular expression (ECMA-262, RegExp), for any number of searches. Its pattern is of the dialect `Ecma`
/// unless [`Options`] name another.
///
/// It keeps its source, its tree in normal form, its program, and its share of the tables. If [`Regex::is_linear`], a
/// search for all matches takes time linear in the length of the text, and if [`Regex::is_find_linear`], a search for one
/// match does, where that is within `linear_steps` of [`Options`]. Any other search backtracks within a step limit. So
/// searches end also for untrusted patterns and texts.
///
/// # Examples
/// ```
/// let regex = Regex::new(alloc, "(?<month>\\d\\d)-(\\d\\d)")?;
/// match regex.find(alloc, "on 12-31")? {
///     Some(found) => {
///         assert_eq!(rt; found.range(), 3..8);
///         assert_eq!(rt; found.named_group("month"), Some(3..5));
///         assert_eq!(rt; found.group(2), Some(6..8));
///     }
///     None => assert!(rt; false, "it matches"),
/// }
/// ```
#[derive(Drop)]
pub struct Regex {
    source: String,
    /// The tree in normal form, its program, and the tables.
    pub(crate) matcher: Matcher,
    /// The capture groups in the order of their ids.
    pub(crate) groups: Vec<Group>,
    /// The number of steps that a search may take if it is not linear.
    pub(crate) steps: u64,
    /// Whether each code point of the pattern is one character ([`Regex::is_exact_for`]).
    exact: bool,
    /// Whether it matches outside of surrogate pairs ([`Regex::is_exact_for`]).
    outside_pairs: bool,
    ghost well_formed: { ∥ IsWellFormed (matcher_tree matcher) ∥₁ },
}

impl Regex {
    ghost use Rattle.std.specs.Prelude.{◌≡◌, ◌+◌, ◌*◌, ◌<◌, ◌≤◌, ◌↔◌, false, All, IsTrue, IfOk, IfErr, IfNone, IfSome, None, chars, is_none, is_some, length, map, min, option_map, string_bytes};
    ghost use Rattle.std.specs.Arc.{arc_value};
    ghost use Rattle.std.specs.Vec.{vec_capacity};
    ghost use Rattle.regress_front.specs.Bound.{HasAtMost};
    ghost use Rattle.regress_front.specs.Dialects.{flags_in_force};
    ghost use Rattle.regress_front.specs.Meaning.{setting_of as setting_under};
    ghost use Rattle.regress_front.specs.Source.{IsCodePoint, Source};
    ghost use Rattle.regress_front.specs.Steps.{Setting};
    ghost use Rattle.regress_front.specs.declared.parse.Dialect.{Dialect};
    ghost use Rattle.regress_front.specs.declared.parse.Dialect.TheVariants.{Ecma};
    ghost use Rattle.regress_ecma.specs.CodeUnits.{IsExactFor};
    ghost use Rattle.regress_found.specs.Found.{IsInside, Finds};
    ghost use Rattle.regress_match.specs.Matcher.{IsFactorOf, IsFindFactorOf, IsNonlinearOf, is_find_linear_tree};
    ghost use Rattle.regress_found.specs.Repeated.{AreAllMatches};
    ghost use Rattle.regress_prefilter.specs.Literals.{bytes_in, literals, longest};
    ghost use Rattle.regress_program.specs.Size.{IsSize};
    ghost use Rattle.regress_replace.specs.Order.{AreInOrder};
    ghost use Rattle.regress.specs.Costs.{AllCostLimit, CostsLimit, factor_in, factor_of, find_factor_in, find_factor_of, limit_of, linear_steps_of, matcher_of, nonlinear_of, step_limit_of};
    ghost use Rattle.regress.specs.Kept.{Keeps};
    ghost use Rattle.regress.specs.Memory.{AllNeedMore, SearchNeedsMore, instructions_of, match_bytes, memory_of, stored_instructions_of};
    ghost use Rattle.regress.specs.Compiled.{IsCompiledFromIn, IsCompiledIn, groups_of, outcomes_of, setting_of, source_of, tree_of, groups_in, match_of};
    ghost use Rattle.regress.specs.Unicode.{unicode_setting};
    ghost use Rattle.regress.specs.Source.{text_of};
    ghost use Rattle.regress.specs.Failures.{IsDue, IsDueWithLetters};
    ghost use Rattle.regress.specs.Searched.{MatchesSomewhere, has_failed, next_from, search_limit, search_remaining, search_taken, searched_factor, searched_groups, searched_matcher, searched_outcomes, searched_text};
    ghost use Rattle.regress.specs.Groups.{names_left};
    ghost use Rattle.regress.specs.Letters.{AreFlags, flags_of, no_flags};
    ghost use Rattle.regress.specs.Limits.{default_options, linear_limit};
    ghost use Rattle.regress.specs.Required.{RequiresLiteral};
    ghost use Rattle.regress.specs.declared.failure.SearchError.TheVariants.{OutOfSteps, TooMuchMemory};

    /// Compiles a pattern of the dialect `Ecma` without flags, under the table of all of Unicode, within the default
    /// [`Options`].
    ///
    /// The table is made for this pattern. A caller with many patterns makes it once, by `unicode_tables` of
    /// `regress_ucd`, and lends it to [`Regex::with_options`].
    ///
    /// # Errors
    /// As for [`Regex::with_options`].
    pub fn new(alloc: Global, pattern: &str) -> Result<Regex, Error>
        ensures compiled { IfOk result (IsCompiledIn Ecma (unicode_setting no_flags) pattern.now) }
        ensures keeps { IfOk result (Keeps default_options no_flags (chars pattern.now)) }
        ensures failed { IfErr result (IsDue (unicode_setting no_flags) (chars pattern.now) default_options) }
    {
        Regex::under_unicode(alloc, pattern, Flags::default())
    }

    /// Compiles a pattern as [`Regex::new`] does, with flags by JavaScript's letters, as for
    /// [`parse_flags`](crate::parse_flags).
    ///
    /// # Errors
    /// [`Error::Flags`] if the letters specify no flags, whether or not the pattern is valid; else as for
    /// [`Regex::with_options`].
    ///
    /// # Examples
    /// ```
    /// let regex = Regex::with_flags(alloc, "\\p{Script=Greek}+", "u")?;
    /// match regex.find(alloc, "a βγ")? {
    ///     Some(found) => assert_eq!(rt; found.range(), 2..6),
    ///     None => assert!(rt; false, "it matches"),
    /// }
    /// assert!(rt; Regex::with_flags(alloc, "a", "gg").is_err());
    /// ```
    pub fn with_flags(alloc: Global, pattern: &str, letters: &str) -> Result<Regex, Error>
        ensures accepted { IfOk result (λ _. AreFlags (chars letters.now)) }
        ensures compiled { IfOk result (IsCompiledIn Ecma (unicode_setting (flags_of (chars letters.now))) pattern.now) }
        ensures keeps { IfOk result (Keeps default_options (flags_of (chars letters.now)) (chars pattern.now)) }
        ensures failed { IfErr result (IsDueWithLetters (chars letters.now) (chars pattern.now)) }
    {
        let flags = parse_flags(letters)?;
        Regex::under_unicode(alloc, pattern, flags)
    }

    /// Compiles a pattern of a dialect with flags, within limits, under tables that the caller makes once for all
    /// patterns.
    ///
    /// # Errors
    /// - [`Error::TooLarge`] if `node_bound` of the pattern exceeds `options.nodes`, whether or not the pattern is
    ///   valid, or if more than `options.instructions` instructions of its program are stored, as [`Options::instructions`]
    ///   counts them, or there are more than `usize::MAX` with all iterations of its loops.
    /// - [`Error::Syntax`] if the pattern is rejected.
    /// - [`Error::Memory`] if an allocation fails.
    ///
    /// # Complexity
    /// As for `parse_and_optimize` of `regress_front`. If the pattern is too large, it is not parsed. Compiling takes time
    /// and memory in proportion to the number of stored instructions.
    pub fn with_options(
        alloc: Global,
        pattern: &str,
        flags: Flags,
        options: Options,
        tables: &Arc<Tables>,
    ) -> Result<Regex, Error>
        ensures compiled { let dialect = options.dialect in let setting = setting_under (flags_in_force dialect flags) (arc_value tables.now) in
            IfOk result (IsCompiledIn dialect setting pattern.now) }
        ensures failed { let setting = setting_under (flags_in_force options.dialect flags) (arc_value tables.now) in
            IfErr result (IsDue setting (chars pattern.now) options) }
        ensures small { IfOk result (λ _. options.nodes < usize.MAX → HasAtMost (flags_in_force options.dialect flags) (chars pattern.now) options.nodes) }
        ensures within { IfOk result (λ regex. stored_instructions_of regex ≤ options.instructions) }
        ensures limit { IfOk result (λ regex. limit_of regex ≡ options.steps) }
        ensures linear_steps { IfOk result (λ regex. linear_steps_of regex ≡ options.linear_steps) }
        ensures memory { IfOk result (λ regex. memory_of regex ≡ options.memory) }
        ensures instructions { IfOk result (λ regex. IsSize options.instructions (tree_of regex) (instructions_of regex)) }
        ensures linear { IfOk result (λ regex. IsFactorOf (linear_limit options) (tree_of regex) (factor_of regex)) }
        ensures find_linear { IfOk result (λ regex. IsFindFactorOf (linear_limit options) (tree_of regex) (find_factor_of regex)) }
        ensures find_linear_tree { IfOk result (λ regex. is_some (find_factor_of regex) ≡ is_find_linear_tree (linear_limit options) (tree_of regex)) }
        ensures nonlinear { IfOk result (λ regex. IsNonlinearOf (linear_limit options) (tree_of regex) (nonlinear_of regex)) }
    {
        let points = code_points(alloc, pattern)?;
        let source = String::from_str(alloc, pattern)?;
        Regex::with_source(alloc, source, &points, flags, options, tables)
    }

    /// Compiles a pattern of code points, which may be surrogates, as [`Regex::with_options`] does.
    ///
    /// # Preconditions
    /// Each element of `pattern` is a code point, at most U+10FFFF.
    ///
    /// # Errors
    /// As for [`Regex::with_options`].
    ///
    /// # Complexity
    /// As for [`Regex::with_options`].
    pub fn from_unicode(
        alloc: Global,
        pattern: &[u32],
        flags: Flags,
        options: Options,
        tables: &Arc<Tables>,
    ) -> Result<Regex, Error>
        requires { All IsCodePoint pattern.now }
        ensures compiled { let dialect = options.dialect in let setting = setting_under (flags_in_force dialect flags) (arc_value tables.now) in
            IfOk result (IsCompiledFromIn dialect setting pattern.now) }
        ensures source { IfOk result (λ regex. source_of regex ≡ text_of pattern.now) }
        ensures failed { let setting = setting_under (flags_in_force options.dialect flags) (arc_value tables.now) in
            IfErr result (IsDue setting pattern.now options) }
        ensures small { IfOk result (λ _. options.nodes < usize.MAX → HasAtMost (flags_in_force options.dialect flags) pattern.now options.nodes) }
        ensures within { IfOk result (λ regex. stored_instructions_of regex ≤ options.instructions) }
        ensures limit { IfOk result (λ regex. limit_of regex ≡ options.steps) }
        ensures linear_steps { IfOk result (λ regex. linear_steps_of regex ≡ options.linear_steps) }
        ensures memory { IfOk result (λ regex. memory_of regex ≡ options.memory) }
        ensures instructions { IfOk result (λ regex. IsSize options.instructions (tree_of regex) (instructions_of regex)) }
        ensures linear { IfOk result (λ regex. IsFactorOf (linear_limit options) (tree_of regex) (factor_of regex)) }
        ensures find_linear { IfOk result (λ regex. IsFindFactorOf (linear_limit options) (tree_of regex) (find_factor_of regex)) }
        ensures find_linear_tree { IfOk result (λ regex. is_some (find_factor_of regex) ≡ is_find_linear_tree (linear_limit options) (tree_of regex)) }
        ensures nonlinear { IfOk result (λ regex. IsNonlinearOf (linear_limit options) (tree_of regex) (nonlinear_of regex)) }
    {
        let source = text_of(alloc, pattern)?;
        Regex::with_source(alloc, source, pattern, flags, options, tables)
    }

    /// Compiles a pattern of code points whose text is `source`.
    ///
    /// # Preconditions
    /// As for [`Regex::from_unicode`], and `source` has U+FFFD in place of each surrogate.
    ///
    /// # Errors
    /// As for [`Regex::with_options`].
    fn with_source(
        alloc: Global,
        source: String,
        pattern: &[u32],
        flags: Flags,
        options: Options,
        tables: &Arc<Tables>,
    ) -> Result<Regex, Error>
        requires points { All IsCodePoint pattern.now }
        requires text { string_bytes source ≡ text_of pattern.now }
        ensures compiled { let dialect = options.dialect in let setting = setting_under (flags_in_force dialect flags) (arc_value tables.now) in
            IfOk result (IsCompiledFromIn dialect setting pattern.now) }
        ensures source { IfOk result (λ regex. source_of regex ≡ text_of pattern.now) }
        ensures failed { let setting = setting_under (flags_in_force options.dialect flags) (arc_value tables.now) in
            IfErr result (IsDue setting pattern.now options) }
        ensures small { IfOk result (λ _. options.nodes < usize.MAX → HasAtMost (flags_in_force options.dialect flags) pattern.now options.nodes) }
        ensures within { IfOk result (λ regex. stored_instructions_of regex ≤ options.instructions) }
        ensures limit { IfOk result (λ regex. limit_of regex ≡ options.steps) }
        ensures linear_steps { IfOk result (λ regex. linear_steps_of regex ≡ options.linear_steps) }
        ensures memory { IfOk result (λ regex. memory_of regex ≡ options.memory) }
        ensures instructions { IfOk result (λ regex. IsSize options.instructions (tree_of regex) (instructions_of regex)) }
        ensures linear { IfOk result (λ regex. IsFactorOf (linear_limit options) (tree_of regex) (factor_of regex)) }
        ensures find_linear { IfOk result (λ regex. IsFindFactorOf (linear_limit options) (tree_of regex) (find_factor_of regex)) }
        ensures find_linear_tree { IfOk result (λ regex. is_some (find_factor_of regex) ≡ is_find_linear_tree (linear_limit options) (tree_of regex)) }
        ensures nonlinear { IfOk result (λ regex. IsNonlinearOf (linear_limit options) (tree_of regex) (nonlinear_of regex)) }
    {
        let in_force = options.dialect.flags_in_force(flags);
        let bound = node_bound(pattern, in_force);
        if bound > options.nodes {
            return Err(Error::TooLarge);
        }
        let compiled = optimized(alloc, pattern, flags, tables, options.dialect)?;
        let groups = groups(alloc, &compiled.0)?;
        let limits = Limits {
            instructions: options.instructions,
            linear_instructions: options.linear_instructions,
            linear_steps: options.linear_steps,
            memory: options.memory,
        };
        let outside_pairs = compiled.1;
        let matcher = Matcher::new(alloc, compiled.0, tables, limits)?;
        Ok(Regex {
            source,
            matcher,
            groups,
            steps: options.steps,
            exact: is_exact_source(pattern, in_force.unicode),
            outside_pairs,
        })
    }

    /// Compiles a pattern of the dialect `Ecma` under the table of all of Unicode, within the default options.
    fn under_unicode(alloc: Global, pattern: &str, flags: Flags) -> Result<Regex, Error>
        ensures compiled { IfOk result (IsCompiledIn Ecma (unicode_setting (flags_in_force Ecma flags)) pattern.now) }
        ensures keeps { IfOk result (Keeps default_options (flags_in_force Ecma flags) (chars pattern.now)) }
        ensures failed { IfErr result (IsDue (unicode_setting (flags_in_force Ecma flags)) (chars pattern.now) default_options) }
    {
        let tables = Arc::new(alloc, unicode_tables(alloc)?)?;
        Regex::with_options(alloc, pattern, flags, Options::default(), &tables)
    }

    /// Returns a literal that each match contains, in UTF-8 and not empty, or `None` if none is known. A text without it
    /// has no match, so a caller may look for it first, in many texts at once.
    ///
    /// It is the longest one that is found outside alternations and lookarounds. With the flag i, letters are none.
    ///
    /// # Complexity
    /// One pass over the tree of the pattern, without allocations.
    ///
    /// # Examples
    /// ```
    /// let regex = Regex::new(alloc, "(?:id|name)=x+, user=\\d+")?;
    /// assert_eq!(rt; regex.required_literal(), Some(", user=".as_bytes()));
    /// ```
    pub fn required_literal(&self) -> Option<&[u8]>
        ensures required { IfSome result (λ literal. RequiresLiteral self.now literal.now) }
        ensures not_empty { IfSome result (λ literal. 0 < length literal.now) }
        ensures longest { bytes_in result ≡ longest (literals (tree_of self.now)) }
    {
        self.matcher.required_literal()
    }

    /// Returns whether the pattern matches somewhere in `text`.
    ///
    /// # Errors
    /// As for [`Regex::find_at`].
    pub fn is_match(&self, alloc: Global, text: &str) -> Result<bool, SearchError>
        ensures is { IfOk result (λ is. IsTrue is ↔ MatchesSomewhere text.now (outcomes_of self.now text.now)) }
        ensures linear { IfErr result (λ error. error ≡ OutOfSteps → factor_in self.now text.now ≡ None) }
        ensures bounded { IfErr result (λ error. error ≡ OutOfSteps → find_factor_in self.now text.now ≡ None) }
        ensures costs { IfErr result (λ error. error ≡ OutOfSteps → CostsLimit self.now text.now 0) }
        ensures too_much { IfErr result (λ error. error ≡ TooMuchMemory → SearchNeedsMore self.now text.now 0) }
    {
        let found = self.find(alloc, text)?;
        Ok(found.is_some())
    }

    /// Returns the leftmost match in `text`, and of those at its position the preferred one; `None` if there is none.
    ///
    /// # Errors
    /// As for [`Regex::find_at`].
    pub fn find(&self, alloc: Global, text: &str) -> Result<Option<Match<'_>>, SearchError>
        ensures finds { IfOk result (λ found. Finds text.now (outcomes_of self.now text.now) 0 (option_map match_of found)) }
        ensures inside { IfOk result (λ found. IfSome found (λ m. IsInside text.now (match_of m))) }
        ensures groups { IfOk result (λ found. IfSome found (λ m. groups_in m ≡ groups_of self.now)) }
        ensures linear { IfErr result (λ error. error ≡ OutOfSteps → factor_in self.now text.now ≡ None) }
        ensures bounded { IfErr result (λ error. error ≡ OutOfSteps → find_factor_in self.now text.now ≡ None) }
        ensures costs { IfErr result (λ error. error ≡ OutOfSteps → CostsLimit self.now text.now 0) }
        ensures too_much { IfErr result (λ error. error ≡ TooMuchMemory → SearchNeedsMore self.now text.now 0) }
    {
        self.find_at(alloc, text, 0)
    }

    /// Returns the leftmost match in `text` that starts at the byte offset `start` or later, on a character boundary,
    /// and of those at its position the preferred one; `None` if there is none.
    ///
    /// What precedes `start` is text too: `^` does not match there, and a lookbehind may match it. `start` may be off a
    /// character boundary; past the end of `text` there is no match. The spans of the match and of its groups are
    /// inside `text`, on character boundaries.
    ///
    /// # Errors
    /// - [`SearchError::OutOfSteps`] if the search takes more than `steps` of [`Options`]; or if
    ///   [`Regex::is_find_linear`], more than `linear_steps`, and never where [`Regex::find_steps_per_byte`] for each byte of
    ///   the text, and once more, is within that.
    /// - [`SearchError::TooMuchMemory`] if the search needs tables that take more bytes than `memory` of [`Options`], and
    ///   so would (n / 4 + 8) (length + 1) for a program of n instructions, with n / 4 rounded up; or if it only
    ///   backtracks, and a backtrack stack needs more.
    /// - [`SearchError::Memory`] if an allocation fails.
    ///
    /// # Complexity
    /// If [`Regex::is_find_linear`], the steps are at most [`Regex::find_steps_per_byte`] for each byte of the text,
    /// and once more, where that is within `linear_steps` of [`Options`]; a step takes constant time, but for literals,
    /// sets, the groups that an iteration unsets or a lookaround sets, and the alternatives that it passes over because
    /// the next byte excludes them. Else the time is at most the step limit and the length of `text` together, times a
    /// factor that depends only on the pattern and the tables.
    pub fn find_at(
        &self,
        alloc: Global,
        text: &str,
        start: usize,
    ) -> Result<Option<Match<'_>>, SearchError>
        ensures finds { IfOk result (λ found. Finds text.now (outcomes_of self.now text.now) start (option_map match_of found)) }
        ensures inside { IfOk result (λ found. IfSome found (λ m. IsInside text.now (match_of m))) }
        ensures groups { IfOk result (λ found. IfSome found (λ m. groups_in m ≡ groups_of self.now)) }
        ensures linear { IfErr result (λ error. error ≡ OutOfSteps → factor_in self.now text.now ≡ None) }
        ensures bounded { IfErr result (λ error. error ≡ OutOfSteps → find_factor_in self.now text.now ≡ None) }
        ensures costs { IfErr result (λ error. error ≡ OutOfSteps → CostsLimit self.now text.now start) }
        ensures too_much { IfErr result (λ error. error ≡ TooMuchMemory → SearchNeedsMore self.now text.now start) }
    {
        let mut searcher = Searcher::new(alloc);
        searcher.find_at(alloc, self, text, start)
    }

    /// Returns an iterator over the non-overlapping matches in `text`, from left to right. The step limit of
    /// [`Options`] is for all of them together.
    ///
    /// # Examples
    /// ```
    /// let regex = Regex::new(alloc, "a+")?;
    /// let mut ends = Vec::new(alloc);
    /// for found in regex.find_iter(alloc, "aabxa") {
    ///     ends.push(found?.end())?;
    /// }
    /// assert_eq!(rt; ends.as_slice(), [2, 5].as_slice());
    /// ```
    pub fn find_iter<'r>(&'r self, alloc: Global, text: &'r str) -> Matches<'r>
        ensures from { next_from result ≡ 0 }
        ensures text { searched_text result ≡ text.now }
        ensures outcomes { searched_outcomes result ≡ outcomes_of self.now text.now }
        ensures groups { searched_groups result ≡ groups_of self.now }
        ensures linear { searched_factor result ≡ factor_in self.now text.now }
        ensures matcher { searched_matcher result ≡ matcher_of self.now }
        ensures limit { IfNone (factor_in self.now text.now) (search_limit result ≡ step_limit_of self.now) }
        ensures remaining { search_remaining result ≡ search_limit result }
        ensures taken { search_taken result ≡ 0 }
        ensures failed { has_failed result ≡ false }
    {
        self.find_from(alloc, text, 0)
    }

    /// Returns an iterator over the non-overlapping matches in `text` that start at the byte offset `start` or later, as
    /// [`Regex::find_iter`] does and with a `start` as for [`Regex::find_at`].
    pub fn find_from<'r>(&'r self, alloc: Global, text: &'r str, start: usize) -> Matches<'r>
        ensures from { next_from result ≡ start }
        ensures text { searched_text result ≡ text.now }
        ensures outcomes { searched_outcomes result ≡ outcomes_of self.now text.now }
        ensures groups { searched_groups result ≡ groups_of self.now }
        ensures linear { searched_factor result ≡ factor_in self.now text.now }
        ensures matcher { searched_matcher result ≡ matcher_of self.now }
        ensures limit { IfNone (factor_in self.now text.now) (search_limit result ≡ step_limit_of self.now) }
        ensures remaining { search_remaining result ≡ search_limit result }
        ensures taken { search_taken result ≡ 0 }
        ensures failed { has_failed result ≡ false }
    {
        Matches::new(alloc, &self.matcher, &self.groups, text, start, self.steps)
    }

    /// Returns all non-overlapping matches in `text`, from left to right, as [`Regex::find_iter`] finds them.
    ///
    /// # Errors
    /// - [`SearchError::OutOfSteps`] if the matches together take more than `steps` of [`Options`]; or if
    ///   [`Regex::is_linear`], more than `linear_steps`, and never where [`Regex::steps_per_byte`] for each byte of the
    ///   text, and once more, is within that.
    /// - [`SearchError::TooMuchMemory`] as for [`Regex::find_at`], and if the list takes more bytes than `memory` of
    ///   [`Options`]: 56 for each match, and 24 for each of its groups.
    /// - [`SearchError::Memory`] if an allocation fails.
    pub fn find_all<'r>(
        &'r self,
        alloc: Global,
        text: &'r str,
    ) -> Result<Vec<Match<'r>>, SearchError>
        ensures all { IfOk result (λ all. AreAllMatches text.now (outcomes_of self.now text.now) (map match_of all.items)) }
        ensures inside { IfOk result (λ all. All (λ m. IsInside text.now (match_of m)) all.items) }
        ensures groups { IfOk result (λ all. All (λ m. groups_in m ≡ groups_of self.now) all.items) }
        ensures held { IfOk result (λ all. match_bytes self.now * vec_capacity all ≤ memory_of self.now) }
        ensures linear { IfErr result (λ error. error ≡ OutOfSteps → factor_in self.now text.now ≡ None) }
        ensures costs { IfErr result (λ error. error ≡ OutOfSteps → AllCostLimit self.now text.now 0) }
        ensures too_much { IfErr result (λ error. error ≡ TooMuchMemory → AllNeedMore self.now text.now 0) }
    {
        let most = self.matcher.most_matches();
        let mut all = Vec::new(alloc);
        for found in self.find_iter(alloc, text) {
            let found = found?;
            push_within(&mut all, found, most)?;
        }
        Ok(all)
    }

    /// Returns all matches in `text`, without the groups of the pattern.
    pub(crate) fn all_matches(&self, alloc: Global, text: &str) -> Result<Vec<Found>, SearchError>
        ensures all { IfOk result (λ all. AreAllMatches text.now (outcomes_of self.now text.now) all.items) }
        ensures inside { IfOk result (λ all. All (IsInside text.now) all.items) }
        ensures order { IfOk result (λ all. AreInOrder 0 all.items) }
        ensures linear { IfErr result (λ error. error ≡ OutOfSteps → factor_in self.now text.now ≡ None) }
        ensures held { IfOk result (λ all. match_bytes self.now * vec_capacity all ≤ memory_of self.now) }
        ensures costs { IfErr result (λ error. error ≡ OutOfSteps → AllCostLimit self.now text.now 0) }
        ensures too_much { IfErr result (λ error. error ≡ TooMuchMemory → AllNeedMore self.now text.now 0) }
    {
        search::find_all(alloc, &self.matcher, text, self.steps)
    }

    /// Returns the text of the pattern. Of a pattern of [`Regex::from_unicode`] it has U+FFFD in place of each surrogate.
    pub fn source(&self) -> &str
        ensures { result.now ≡ source_of self.now }
    {
        &self.source
    }

    /// Returns the flags in force ([`Dialect::flags_in_force`](crate::Dialect::flags_in_force)).
    pub fn flags(&self) -> Flags
        ensures { result ≡ (setting_of self.now).flags }
    {
        self.matcher.regex().flags
    }

    /// Returns whether a match in `text` is that of ECMA-262: if the flag u is set, which v implies in the dialect `Ecma`, or
    /// if the pattern has no code point above U+FFFF, and neither has `text`, or the pattern matches outside of surrogate
    /// pairs. Then a match in that dialect, under a table with the data of Unicode, is JavaScript's (the clause `exact` of
    /// [`find_returns_the_match_of_ecma`](crate::find_returns_the_match_of_ecma)).
    ///
    /// Without u and v, JavaScript matches code units of UTF-16, of which a code point above U+FFFF has two. A pattern
    /// matches outside of these pairs if each literal and class matches only characters that are no surrogates and at most
    /// U+FFFF, and each match has one, such as `\bfoo\b`, `\d+` or `(\w+)@(\w+)`. Patterns with `.`, `\W`, `[^a]` or a back
    /// reference do not. With u the result is `false` for a pattern of [`Regex::from_unicode`] with a surrogate, since two of
    /// them may be a pair.
    ///
    /// # Complexity
    /// Linear in the length of `text`, or constant if the pattern matches outside of pairs.
    ///
    /// # Examples
    /// ```
    /// let regex = Regex::new(alloc, "^.$")?;
    /// assert!(rt; regex.is_exact_for("é"));
    /// assert!(rt; !regex.is_exact_for("😀"));
    /// assert!(rt; Regex::with_flags(alloc, "^.$", "u")?.is_exact_for("😀"));
    /// assert!(rt; Regex::new(alloc, "\\bfoo\\b")?.is_exact_for("😀"));
    /// ```
    pub fn is_exact_for(&self, text: &str) -> bool
        ensures { (dialect : Dialect) (setting : Setting) (pattern : Source) (compiled : IsCompiledFromIn dialect setting pattern self.now) →
            IsTrue result ↔ IsExactFor setting compiled.tree.pattern pattern (chars text.now) }
    {
        self.exact && (self.outside_pairs || is_exact_text(text, self.flags().unicode))
    }

    /// Returns whether a search for all matches is known to take time linear in the length of the text.
    ///
    /// It is exactly if the pattern has neither a back reference nor a capture group in a lookaround that is not negated,
    /// and its program at most `linear_instructions` of [`Options`] instructions. What is in a loop without iterations,
    /// as in `(?:(a)\1){0}`, does not count.
    ///
    /// # Examples
    /// ```
    /// assert!(rt; Regex::new(alloc, "(?:a|a)*b")?.is_linear());
    /// ```
    pub fn is_linear(&self) -> bool
        ensures { result ≡ is_some (factor_of self.now) }
    {
        self.matcher.is_linear()
    }

    /// Returns whether a search for one match is known to take time linear in the length of the text: also where
    /// lookarounds contain capture groups. It is if [`Regex::is_linear`].
    ///
    /// It is exactly if the pattern has no back reference, other than in a loop without iterations, and its program at
    /// most `linear_instructions` of [`Options`] instructions.
    ///
    /// # Examples
    /// ```
    /// let regex = Regex::new(alloc, "(?=(a*))a*b")?;
    /// assert!(rt; regex.is_find_linear());
    /// assert!(rt; !regex.is_linear());
    /// ```
    pub fn is_find_linear(&self) -> bool
        ensures { result ≡ is_some (find_factor_of self.now) }
    {
        self.matcher.is_find_linear()
    }

    /// Returns why searches for all matches are not known to take linear time, and `None` if they do. If several reasons
    /// hold, it is the first in the order of [`Nonlinear`].
    ///
    /// # Examples
    /// ```
    /// let regex = Regex::new(alloc, "(a)\\1")?;
    /// assert_eq!(rt; regex.nonlinear(), Some(Nonlinear::BackReference));
    /// ```
    pub fn nonlinear(&self) -> Option<Nonlinear>
        ensures reason { result ≡ nonlinear_of self.now }
        ensures linear { is_none result ≡ is_some (factor_of self.now) }
    {
        self.matcher.nonlinear()
    }

    /// Returns an upper bound for the steps of a search for all matches for each byte of a text, counting its end as one
    /// more; at most `u64::MAX`. All matches that an iterator returns are one search. The result is `None` if such searches
    /// are not known to take linear time.
    pub fn steps_per_byte(&self) -> Option<u64>
        ensures { result ≡ option_map (λ n. min n u64.MAX) (factor_of self.now) }
    {
        self.matcher.steps_per_byte()
    }

    /// Returns the same for a search for one match.
    pub fn find_steps_per_byte(&self) -> Option<u64>
        ensures { result ≡ option_map (λ n. min n u64.MAX) (find_factor_of self.now) }
    {
        self.matcher.find_steps_per_byte()
    }

    /// Returns the number of matches that a list may have room for, by `memory` of [`Options`].
    pub fn most_matches(&self) -> usize
        ensures within { match_bytes self.now * result ≤ memory_of self.now }
        ensures most { memory_of self.now < match_bytes self.now * (result + 1) }
    {
        self.matcher.most_matches()
    }

    /// Returns the number of capture groups, without the whole match.
    pub fn group_count(&self) -> usize
        ensures { result ≡ length (groups_of self.now) }
    {
        self.groups.len()
    }

    /// Returns the name of each capture group in the order of the opening parentheses, `None` for a group without one.
    pub fn group_names(&self) -> GroupNames<'_>
        ensures { names_left result ≡ map (λ c. c.name) (groups_of self.now) }
    {
        GroupNames { rest: &self.groups }
    }
}

/// Writes the text of the pattern.
impl Display for Regex {
    ghost use Rattle.std.specs.Prelude.{Some};
    ghost use Rattle.regress.specs.Compiled.{source_of};

    ghost output = { λ regex. Some (source_of regex) };

    fn fmt<W: Write>(&self, f: &mut Formatter<W>) -> fmt::Result {
        f.write_str(&self.source)
    }
}
