//! Searches that look for a literal first.
ghost use Rattle.std.specs.Prelude.{IfSome};
ghost use Rattle.std.proofs.Props.{props};
ghost use Rattle.regress.specs.Required.{RequiresLiteral};

use memchr::memmem::Finder;
use regress::{Match, Regex, SearchError};
use std::alloc::Global;

/// A regular expression, for searches in many texts, and a literal that each match contains, if one is known.
#[derive(Drop)]
pub(crate) struct Searcher<'r> {
    pub(crate) alloc: Global,
    pub(crate) regex: &'r Regex,
    literal: Option<Finder<'r>>,
    ghost required: { IfSome literal (RequiresLiteral regex.now) } by { Prim.hlevel props },
}

impl<'r> Searcher<'r> {
    ghost use Rattle.std.specs.Prelude.{◌≡◌, ◌↔◌, All, IfErr, IfOk, IsTrue, map, true};
    ghost use Rattle.regress_found.specs.Found.{IsInside};
    ghost use Rattle.regress.specs.Searched.{MatchesSomewhere};
    ghost use Rattle.regress_found.specs.Repeated.{AreAllMatches};
    ghost use Rattle.regress.specs.Compiled.{outcomes_of, match_of};
    ghost use Rattle.regex_lines.specs.Ending.{IsCostly, IsSearchError};

    /// Returns a searcher for a regular expression.
    pub(crate) fn new(alloc: Global, regex: &'r Regex) -> Searcher<'r>
        ensures { result.regex.now ≡ regex.now }
    {
        Searcher {
            alloc,
            regex,
            literal: match regex.required_literal() {
                Some(literal) => Some(Finder::new(literal)),
                None => None,
            },
        }
    }

    /// Returns whether the regular expression matches somewhere in `text`.
    pub(crate) fn is_match(&self, text: &str) -> Result<bool, SearchError>
        ensures is { IfOk result (λ is. IsTrue is ↔ MatchesSomewhere text.now (outcomes_of self.now.regex.now text.now)) }
        ensures failed { IfErr result (IsSearchError (IsCostly self.now.regex.now)) }
    {
        if self.lacks_literal(text) {
            return Ok(false);
        }
        self.regex.is_match(self.alloc, text)
    }

    /// Returns all matches in `text`.
    pub(crate) fn find_all<'t>(&'t self, text: &'t str) -> Result<Vec<Match<'t>>, SearchError>
        ensures all { IfOk result (λ all. AreAllMatches text.now (outcomes_of self.now.regex.now text.now) (map match_of all.items)) }
        ensures inside { IfOk result (λ all. All (λ m. IsInside text.now (match_of m)) all.items) }
        ensures failed { IfErr result (IsSearchError (IsCostly self.now.regex.now)) }
    {
        if self.lacks_literal(text) {
            return Ok(Vec::new(self.alloc));
        }
        self.regex.find_all(self.alloc, text)
    }

    /// Returns whether a literal is known that each match contains and that does not occur in `text`.
    pub(crate) fn lacks_literal(&self, text: &str) -> bool
        ensures { result ≡ true → MatchesSomewhere text.now (outcomes_of self.now.regex.now text.now) → ⊥ }
    {
        match &self.literal {
            Some(literal) => literal.find(text.as_bytes()).is_none(),
            None => false,
        }
    }
}
