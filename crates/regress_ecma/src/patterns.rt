//! The theorem that the grammar of the dialect `Ecma` accepts patterns where ECMA-262 accepts them.
ghost use Rattle.std.specs.Prelude.{◌≡◌, Bool, true, false, List, [], Some};
ghost use Rattle.std.specs.List.{All};
ghost use Rattle.regress_base.specs.declared.types.Quantifier.{Quantifier};
ghost use Rattle.regress_base.specs.Table.{Table};
ghost use Rattle.regress_tree.specs.Steps.{Setting};
ghost use Rattle.regress_lexer.specs.Source.{Source, IsCodePoint, is_at, question_mark};
ghost use Rattle.regress_lexer.specs.Quantifiers.{is_ordered, quantifier_at};
ghost use Rattle.regress_syntax.specs.Grammar.{IsPattern};
ghost use Rattle.regress_syntax.specs.Names.{group_name_at};
ghost use Rattle.regress_syntax.specs.SameNames.{NoneConflict};
ghost use Rattle.regress_syntax.specs.Syntax.{Name, names, Pattern};
ghost use Rattle.regress_ucd.specs.UnicodeTable.{unicode_table};
ghost use Rattle.regress_ecma.specs.ClassSetExpressions.{HasPropertiesOfStrings};
ghost use Rattle.regress_ecma.specs.Compared.{own_context};
ghost use Rattle.regress_ecma.specs.GroupNames.{HasIdentifiers, IsGroupName};
ghost use Rattle.regress_ecma.specs.PatternNodes.{Disjunction, groups};
ghost use Rattle.regress_ecma.specs.Patterns.{has_early_error, HasMinima, IsDerivedPattern, IsWithin};
ghost use Rattle.regress_ecma.specs.Quantifiers.{HasMinimum, is_out_of_order, IsQuantifier, quantifier_of, QuantifierPrefix};

/// States the theorem that in the dialect `Ecma` a pattern is accepted exactly where ECMA-262 accepts it (section 22.2.1 with
/// its early errors, and B.1.2), but for limits.
///
/// `Patterns` has the grammar of the standard, with `Quantifiers`, `GroupNames` and what `accepts_what_ecma_accepts` is about.
/// They refer to no production of the other crates, but for properties by name. Sources are code points.
///
/// Limits: `{n,m}` with n > m is accepted if m is 2^64 - 1 or more, and classes with the flag v nest up to a limit. Those of
/// `try_parse_in` come on top.
///
/// The function does nothing at run time; call it where a proof needs the theorem.
pub fn accepts_patterns_of_ecma()
    // A pattern that the grammar derives without names in conflict, ECMA-262 derives without an early error, with the same groups.
    ensures accepted { (setting : Setting) → (setting.flags.unicode_sets ≡ true → setting.flags.unicode ≡ true) →
        HasPropertiesOfStrings setting.table → (t : Source) → All IsCodePoint t → (p : Pattern) → IsPattern (own_context setting p) p t [] → NoneConflict p →
        (d : Disjunction) × IsDerivedPattern setting.table setting.flags.unicode setting.flags.unicode_sets d t
        × IsWithin setting.flags.unicode_sets d × (HasMinima d → has_early_error d ≡ false) × (groups d ≡ names p) }

    // What ECMA-262 derives without an early error the grammar derives, with the same groups, and without names in conflict.
    ensures derived { (setting : Setting) → (setting.flags.unicode_sets ≡ true → setting.flags.unicode ≡ true) →
        HasIdentifiers setting.table → (t : Source) → All IsCodePoint t → (d : Disjunction) →
        IsDerivedPattern setting.table setting.flags.unicode setting.flags.unicode_sets d t → has_early_error d ≡ false →
        IsWithin setting.flags.unicode_sets d →
        (p : Pattern) × IsPattern (own_context setting p) p t [] × NoneConflict p × (groups d ≡ names p) }

    // A quantifier that is found, ECMA-262 derives. Numbers saturate at `usize::MAX`. The parser takes a `?` that follows, since no
    // Term begins with one.
    ensures quantifier { (t rest : Source) (q : Quantifier) → quantifier_at t ≡ Some (q, rest) →
        (prefix : QuantifierPrefix) × (lazy : Bool) × IsQuantifier prefix lazy t rest × (quantifier_of prefix lazy ≡ q)
        × (lazy ≡ false → is_at question_mark rest ≡ false) }

    ensures quantifier_derived { (prefix : QuantifierPrefix) (lazy : Bool) (t rest : Source) → IsQuantifier prefix lazy t rest →
        (lazy ≡ false → is_at question_mark rest ≡ false) → quantifier_at t ≡ Some (quantifier_of prefix lazy, rest) }

    // Its numbers are in order where they are so for ECMA-262, unless both saturate.
    ensures in_order { (prefix : QuantifierPrefix) (lazy : Bool) → is_out_of_order prefix ≡ false →
        is_ordered (quantifier_of prefix lazy) ≡ true }

    ensures out_of_order { (prefix : QuantifierPrefix) (lazy : Bool) → HasMinimum prefix → is_ordered (quantifier_of prefix lazy) ≡ true →
        is_out_of_order prefix ≡ false }

    // The name of a group, with and without the flag u.
    ensures name { (table : Table) (unicode : Bool) (t rest : Source) (name : Name) → group_name_at table t ≡ Some (name, rest) →
        IsGroupName table unicode name t rest }

    ensures name_derived { (table : Table) (unicode : Bool) → HasIdentifiers table → (name : Name) (t rest : Source) →
        IsGroupName table unicode name t rest → group_name_at table t ≡ Some (name, rest) }

    // The table of `unicode_tables` is such a table.
    ensures properties { HasPropertiesOfStrings unicode_table }
    ensures identifiers { HasIdentifiers unicode_table }
{}
