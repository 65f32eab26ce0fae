//! The theorem that an escaped text matches the text.
ghost use Rattle.std.specs.Prelude.{◌≡◌, ◌++◌, ℕ, List, false, nat_eq};
ghost use Rattle.regress_tree.specs.Reading.{Direction};
ghost use Rattle.regress_tree.specs.Steps.{MatchState, Setting};
ghost use Rattle.regress_lexer.specs.FirstCodePoint.{may_begin};
ghost use Rattle.regress_lexer.specs.Source.{Source};
ghost use Rattle.regress_syntax.specs.Grammar.{AreTerms};
ghost use Rattle.regress_syntax.specs.Meaning.{is_literal, meaning};
ghost use Rattle.regress_syntax.specs.Productions.{Context};
ghost use Rattle.regress_syntax.specs.Syntax.{Terms};
ghost use Rattle.regress_parse.specs.Accepted.{IsAccepted};
ghost use Rattle.regress_escape.specs.Escape.{escaped};
ghost use Rattle.regress_escape.specs.Literals.{literals, literals_then, this_string};

/// States the theorem that the pattern that `escape` returns is accepted under all flags, and matches exactly the text.
///
/// So no such pattern is a syntax error. From a position it has one outcome, after the text or, in a lookbehind, before
/// it, if the text is there, and none otherwise. With the flag i, characters are compared up to case folding. Inside a
/// larger pattern, any terms may follow whose source does not begin as a quantifier does.
///
/// The function does nothing at run time; call it where a proof needs the theorem.
pub fn escaped_texts_match_themselves()
    // The pattern is accepted under all flags, with a literal for each character.
    ensures accepted { (setting : Setting) (string : List ℕ) →
        IsAccepted setting (escaped string) (literals setting.flags string) }

    // Each character matches as a literal does; without the flag i, only the same character.
    ensures meaning { (setting : Setting) (d : Direction) (string text : List ℕ) (s : MatchState) →
        meaning setting text d (literals setting.flags string) s
        ≡ this_string d (is_literal setting.table setting.flags) text string s }
    ensures exact { (setting : Setting) (d : Direction) (string text : List ℕ) (s : MatchState) →
        setting.flags.icase ≡ false →
        meaning setting text d (literals setting.flags string) s ≡ this_string d nat_eq text string s }

    // Before other terms it is parsed as these literals too.
    ensures inside { (ctx : Context) (string : List ℕ) (ts : Terms) (t rest : Source) → may_begin t ≡ false →
        AreTerms ctx ts t rest → AreTerms ctx (literals_then ctx.setting.flags string ts) (escaped string ++ t) rest }
{}
