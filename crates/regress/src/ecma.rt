//! The theorems that a pattern is accepted where ECMA-262 accepts it, and that a search finds the match of ECMA-262.
ghost use Rattle.std.specs.Prelude.{◌≡◌, ◌≤◌, ℕ, true, false, List, Option, chars, length, option_map, []};
ghost use Rattle.std.specs.Str.{IsUtf8};
ghost use Rattle.regress_front.specs.Accepted.{IsAcceptedIn, IsDerivedIn, own_context, own_context_in};
ghost use Rattle.regress_front.specs.Reading.{byte_position};
ghost use Rattle.regress_front.specs.Steps.{Setting};
ghost use Rattle.regress_front.specs.Source.{Source};
ghost use Rattle.regress_front.specs.Syntax.{Pattern};
ghost use Rattle.regress_front.specs.declared.parse.Dialect.TheVariants.{Regress, Ecma};
ghost use Rattle.regress_ecma.specs.CodeUnits.{IsExactFor, characters, code_units, found_in_utf8, index_of};
ghost use Rattle.regress_ecma.specs.Compared.{IsComparable, IsOfUnicode};
ghost use Rattle.regress_ecma.specs.CompiledClasses.{with_char_sets};
ghost use Rattle.regress_ecma.specs.Exec.{builtin_exec, found_in_bytes};
ghost use Rattle.regress_ecma.specs.PatternNodes.{Disjunction};
ghost use Rattle.regress_ecma.specs.Patterns.{has_early_error, HasMinima, IsWithin};
ghost use Rattle.regress_found.specs.Found.{Finds, start_of, state_of};
ghost use Rattle.regress_found.specs.declared.found.Match.{Match};
ghost use Rattle.regress.specs.Compiled.{IsCompiledFromIn, IsCompiledIn, outcomes_of};
ghost use Rattle.regress.specs.Failures.{IsDueWithLetters};
ghost use Rattle.regress.specs.Letters.{AreFlags, flags_of};
ghost use Rattle.regress.specs.Unicode.{unicode_setting};
ghost use Rattle.regress.specs.Valid.{IsParsedAs, IsPastLimits, IsRejection, IsValidAs};
ghost use Rattle.regress.specs.declared.failure.Error.{Error};
ghost use Rattle.regress.specs.declared.pattern.Regex.{Regex};

use regress_ecma::{
    accepts_patterns_of_ecma, characters_are_code_points, code_units_have_the_same_matches,
    first_outcome_is_the_match,
};

/// States the theorem that [`Regex::with_flags`](crate::Regex::with_flags) rejects letters and a pattern exactly where
/// RegExpInitialize of ECMA-262 (section 22.2.3.3) throws a SyntaxError, limits aside.
///
/// The clauses `accepted` and `compiled`, and the clause `failed`, of that call give the premises. What ECMA-262 accepts has
/// a parse node of the grammar of section 22.2.1 and B.1.2, which `regress_ecma` transcribes, without an early error. The
/// pattern is a list of code points, as for `accepts_patterns_of_ecma`.
///
/// Limits: those of `IsPastLimits`; `{n,m}` with n > m is accepted if m is 2^64 - 1 or more; classes with the flag v nest up
/// to a limit. [`Error::TooLarge`](crate::Error::TooLarge) and [`Error::Memory`](crate::Error::Memory) are no rejections.
///
/// The function does nothing at run time; call it where a proof needs the theorem.
pub fn compiles_what_ecma_accepts()
    // What is compiled, ECMA-262 accepts.
    ensures accepted { (letters text : List ℕ) → AreFlags letters → IsUtf8 text → (r : Regex) →
        IsCompiledIn Ecma (unicode_setting (flags_of letters)) text r →
        (d : Disjunction) × IsParsedAs letters (chars text) d × (HasMinima d → has_early_error d ≡ false) }

    // What is rejected though ECMA-262 accepts it, has a syntax tree that is past the limits.
    ensures rejected { (letters text : List ℕ) → IsUtf8 text → (error : Error) → IsDueWithLetters letters (chars text) error →
        IsRejection error → (d : Disjunction) → IsValidAs letters (chars text) d → IsWithin (flags_of letters).unicode_sets d →
        (p : Pattern) × IsDerivedIn Ecma (unicode_setting (flags_of letters)) (chars text) p × IsPastLimits p }
{
    accepts_patterns_of_ecma();
}

/// States the theorem that what a search finds is what RegExpBuiltinExec of ECMA-262 (section 22.2.7.2) finds, with byte
/// offsets in place of indices, or that both find nothing.
///
/// In the dialect `Ecma` it is about every pattern (`in_ecma`), in `Regress` about patterns without a differing construct
/// (`IsComparable` of `regress_ecma`). Tables have the case data of Unicode, and texts are code points, as with the flag u;
/// where the matches are the same without it, `exact` has the strings of UTF-16. The clause `finds`
/// of [`Regex::find`](crate::Regex::find) and [`Regex::find_at`](crate::Regex::find_at) gives the premise about the search.
///
/// The function does nothing at run time; call it where a proof needs the theorem.
pub fn find_returns_the_match_of_ecma()
    ensures find { (setting : Setting) (pattern : Source) (r : Regex) (compiled : IsCompiledFromIn Regress setting pattern r) →
        IsComparable setting compiled.tree.pattern → (text : List ℕ) → IsUtf8 text → (found : Option Match) →
        Finds text (outcomes_of r text) 0 found →
        option_map (λ m. (start_of m, state_of m)) found
        ≡ option_map found_in_bytes (builtin_exec setting compiled.tree.pattern (chars text) 0) }

    // From an index of the text on.
    ensures find_at { (setting : Setting) (pattern : Source) (r : Regex) (compiled : IsCompiledFromIn Regress setting pattern r) →
        IsComparable setting compiled.tree.pattern → (text : List ℕ) → IsUtf8 text → (index : ℕ) → index ≤ length (chars text) →
        (found : Option Match) → Finds text (outcomes_of r text) (byte_position (chars text) index) found →
        option_map (λ m. (start_of m, state_of m)) found
        ≡ option_map found_in_bytes (builtin_exec setting compiled.tree.pattern (chars text) index) }

    // The same with the CharSets that CompileToCharSet returns for the source of each class.
    ensures source { (setting : Setting) (pattern : Source) (r : Regex) (compiled : IsCompiledFromIn Regress setting pattern r) →
        IsComparable setting compiled.tree.pattern → (text : List ℕ) → IsUtf8 text → (index : ℕ) → index ≤ length (chars text) →
        (found : Option Match) → Finds text (outcomes_of r text) (byte_position (chars text) index) found →
        option_map (λ m. (start_of m, state_of m)) found
        ≡ option_map found_in_bytes (builtin_exec setting
        (with_char_sets (own_context setting compiled.tree.pattern) compiled.tree.pattern pattern [] compiled.tree.accepted.derived)
        (chars text) index) }

    // In the dialect `Ecma`, without exception.
    ensures in_ecma { (setting : Setting) → IsOfUnicode setting.table → (setting.flags.unicode_sets ≡ true → setting.flags.unicode ≡ true) →
        (pattern : Source) (r : Regex) (compiled : IsCompiledFromIn Ecma setting pattern r) →
        (text : List ℕ) → IsUtf8 text → (index : ℕ) → index ≤ length (chars text) →
        (found : Option Match) → Finds text (outcomes_of r text) (byte_position (chars text) index) found →
        option_map (λ m. (start_of m, state_of m)) found
        ≡ option_map found_in_bytes (builtin_exec setting
        (with_char_sets (own_context_in Ecma setting compiled.tree.pattern) compiled.tree.pattern pattern [] compiled.tree.accepted.derived)
        (chars text) index) }

    // With the pattern's source and the input as ECMA-262 has them, of strings of UTF-16, as `Regex::is_exact_for` tests. The
    // search begins at the index of a position of the text.
    ensures exact { (setting : Setting) → IsOfUnicode setting.table → (setting.flags.unicode_sets ≡ true → setting.flags.unicode ≡ true) →
        (pattern : Source) (r : Regex) (compiled : IsCompiledFromIn Ecma setting pattern r) →
        (text : List ℕ) → IsUtf8 text → IsExactFor setting compiled.tree.pattern pattern (chars text) →
        let source = characters setting.flags.unicode (code_units pattern) in
        let input = characters setting.flags.unicode (code_units (chars text)) in
        (accepted : IsAcceptedIn Ecma setting source compiled.tree.pattern)
        × ((position : ℕ) → position ≤ length (chars text) →
        (found : Option Match) → Finds text (outcomes_of r text) (byte_position (chars text) position) found →
        option_map (λ m. (start_of m, state_of m)) found
        ≡ option_map found_in_utf8 (builtin_exec setting
        (with_char_sets (own_context_in Ecma setting compiled.tree.pattern) compiled.tree.pattern source [] accepted.derived)
        input (index_of setting.flags.unicode (chars text) position))) }
{
    first_outcome_is_the_match();
    characters_are_code_points();
    code_units_have_the_same_matches();
}
