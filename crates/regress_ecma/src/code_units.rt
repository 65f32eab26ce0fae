//! The theorems that a string of code points, each of which is one character, has these characters, and that some patterns
//! match the same in code points and in code units.
ghost use Rattle.std.specs.Prelude.{◌≡◌, ◌≤◌, ℕ, Bool, true, List, length, option_map};
ghost use Rattle.regress_tree.specs.Reading.{IsText};
ghost use Rattle.regress_lexer.specs.Source.{Source};
ghost use Rattle.regress_lexer.specs.declared.dialect.Dialect.TheVariants.{Ecma};
ghost use Rattle.regress_syntax.specs.Grammar.{IsPattern};
ghost use Rattle.regress_syntax.specs.Productions.{Context};
ghost use Rattle.regress_syntax.specs.SameNames.{NoneConflict};
ghost use Rattle.regress_syntax.specs.Syntax.{Pattern};
ghost use Rattle.regress_ecma.specs.CodeUnits.{characters, code_units, found_in_units, found_in_utf8, is_exact, unit_position};
ghost use Rattle.regress_ecma.specs.Compared.{IsOfUnicode};
ghost use Rattle.regress_ecma.specs.CompiledClasses.{with_char_sets};
ghost use Rattle.regress_ecma.specs.Exec.{builtin_exec, found_in_bytes};
ghost use Rattle.regress_ecma.specs.SurrogatePairs.{matches_outside_pairs};

/// States the theorem that the characters which ECMA-262 reads of a string are the code points of which it has the code
/// units, if each of them is one character (`is_exact`).
///
/// With the flag u, or v, each text is so; without, exactly if it has no code point above U+FFFF.
///
/// The function does nothing at run time; call it where a proof needs the theorem.
pub fn characters_are_code_points()
    ensures same { (unicode : Bool) (points : List ℕ) → is_exact unicode points ≡ true → characters unicode (code_units points) ≡ points }

    // Of texts, only then.
    ensures only { (unicode : Bool) (text : List ℕ) → IsText text → characters unicode (code_units text) ≡ text → is_exact unicode text ≡ true }
    ensures with_u { (text : List ℕ) → IsText text → is_exact true text ≡ true }
{}

/// States the theorem that RegExpBuiltinExec of ECMA-262 (section 22.2.7.2) finds in the code units of a text the match that
/// it finds in its code points, if the pattern matches outside of surrogate pairs.
///
/// That is so if each atom matches only characters that are no surrogates and at most U+FFFF, and each match has one of them
/// (`matches_outside_pairs`). Then no match begins, ends or goes on within a pair. It is about the dialect `Ecma`.
///
/// The function does nothing at run time; call it where a proof needs the theorem.
pub fn code_units_have_the_same_matches()
    ensures same { (ctx : Context) → ctx.dialect ≡ Ecma → IsOfUnicode ctx.setting.table →
        (ctx.setting.flags.unicode_sets ≡ true → ctx.setting.flags.unicode ≡ true) →
        (p : Pattern) (t rest : Source) (derived : IsPattern ctx p t rest) → NoneConflict p →
        matches_outside_pairs ctx.setting.table p ≡ true → (text : List ℕ) → IsText text → (k : ℕ) → k ≤ length text →
        builtin_exec ctx.setting (with_char_sets ctx p t rest derived) (code_units text) (unit_position text k)
        ≡ option_map (found_in_units text) (builtin_exec ctx.setting (with_char_sets ctx p t rest derived) text k) }

    // So it is the same match by its offsets in UTF-8.
    ensures offsets { (ctx : Context) → ctx.dialect ≡ Ecma → IsOfUnicode ctx.setting.table →
        (ctx.setting.flags.unicode_sets ≡ true → ctx.setting.flags.unicode ≡ true) →
        (p : Pattern) (t rest : Source) (derived : IsPattern ctx p t rest) → NoneConflict p →
        matches_outside_pairs ctx.setting.table p ≡ true → (text : List ℕ) → IsText text → (k : ℕ) → k ≤ length text →
        option_map found_in_utf8 (builtin_exec ctx.setting (with_char_sets ctx p t rest derived) (code_units text) (unit_position text k))
        ≡ option_map found_in_bytes (builtin_exec ctx.setting (with_char_sets ctx p t rest derived) text k) }

    // These offsets are those of the code points before an index, of each pattern.
    ensures characters { (ctx : Context) → ctx.dialect ≡ Ecma → IsOfUnicode ctx.setting.table →
        (ctx.setting.flags.unicode_sets ≡ true → ctx.setting.flags.unicode ≡ true) →
        (p : Pattern) (t rest : Source) (derived : IsPattern ctx p t rest) → NoneConflict p →
        (text : List ℕ) → IsText text → (k : ℕ) → k ≤ length text →
        option_map found_in_utf8 (builtin_exec ctx.setting (with_char_sets ctx p t rest derived) text k)
        ≡ option_map found_in_bytes (builtin_exec ctx.setting (with_char_sets ctx p t rest derived) text k) }
{}
