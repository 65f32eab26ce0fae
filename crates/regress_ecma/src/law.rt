//! The theorems that the first outcome of a pattern is the match of ECMA-262, and that classes are accepted where it accepts them.
ghost use Rattle.std.specs.Prelude.{◌≡◌, ◌<◌, ◌≤◌, ℕ, Bool, true, false, List, Some, None, length, option_map, replicate, slice_get, [], ◌∷◌};
ghost use Rattle.regress_tree.specs.Reading.{Direction, forwards};
ghost use Rattle.regress_tree.specs.Steps.{MatchState, IsStateOf, Setting};
ghost use Rattle.std.specs.List.{All};
ghost use Rattle.regress_lexer.specs.Source.{Source, IsCodePoint, char};
ghost use Rattle.regress_lexer.specs.declared.dialect.Dialect.TheVariants.{Regress, Ecma};
ghost use Rattle.regress_base.specs.Intervals.{Bounds};
ghost use Rattle.regress_base.specs.Limits.{max_nesting_depth};
ghost use Rattle.regress_base.specs.Table.{Table};
ghost use Rattle.regress_classes.specs.ClassProductions.{class_at};
ghost use Rattle.regress_classes.specs.ClassSets.{Value, class_set_at};
ghost use Rattle.regress_classes.specs.declared.parameters.Parameters.{Parameters};
ghost use Rattle.regress_syntax.specs.Grammar.{IsPattern};
ghost use Rattle.regress_syntax.specs.Meaning.{meaning};
ghost use Rattle.regress_syntax.specs.Productions.{class_parameters, Context, head_at, single};
ghost use Rattle.regress_syntax.specs.SameNames.{NoneConflict};
ghost use Rattle.regress_syntax.specs.Syntax.{Atom, Pattern, names};
ghost use Rattle.regress_ucd.specs.UnicodeTable.{unicode_table};
ghost use Rattle.regress_ecma.specs.Assertions.{accept};
ghost use Rattle.regress_ecma.specs.ClassGrammar.{character_class_at};
ghost use Rattle.regress_ecma.specs.ClassNodes.{CharacterClass};
ghost use Rattle.regress_ecma.specs.ClassRanges.{IsAcceptedClass};
ghost use Rattle.regress_ecma.specs.ClassSetExpressions.{depth, HasPropertiesOfStrings, IsAcceptedClassSet};
ghost use Rattle.regress_ecma.specs.CompiledClasses.{with_char_sets};
ghost use Rattle.regress_ecma.specs.Compared.{IsComparable, IsOfUnicode, state_on};
ghost use Rattle.regress_ecma.specs.Compile.{compile_disjunction, compile_pattern};
ghost use Rattle.regress_ecma.specs.Differences.{HasCaseDataOfUnicode, IsProper};
ghost use Rattle.regress_ecma.specs.Exec.{builtin_exec};
ghost use Rattle.regress_ecma.specs.Notation.{failure};

/// States the theorem that the matcher of ECMA-262 (section 22.2.2) returns the first outcome of a pattern, and fails if
/// there is none.
///
/// In the dialect `Ecma` it is about every pattern that the grammar derives, in `Regress` about syntax trees without a
/// differing construct. Tables have the case data of Unicode, such as that of all of Unicode, and texts are code points.
/// Fuel greater than the length of the text is enough.
///
/// The function does nothing at run time; call it where a proof needs the theorem.
pub fn first_outcome_is_the_match()
    // From any state of the text, in both directions.
    ensures same { (setting : Setting) (p : Pattern) → IsComparable setting p → (text : List ℕ) → All IsCodePoint text →
        (fuel : ℕ) → length text < fuel → (d : Direction) (s : MatchState) → IsStateOf text s →
        compile_disjunction setting.table (names p) fuel setting.flags d 0 p (state_on text s) accept
        ≡ option_map (state_on text) (slice_get (meaning setting text d p s) 0) }
    ensures fails { (setting : Setting) (p : Pattern) → IsComparable setting p → (text : List ℕ) → All IsCodePoint text →
        (fuel : ℕ) → length text < fuel → (d : Direction) (s : MatchState) → IsStateOf text s →
        compile_disjunction setting.table (names p) fuel setting.flags d 0 p (state_on text s) accept ≡ failure →
        meaning setting text d p s ≡ [] }

    // The same with the CharSets of ECMA-262 for classes: those that CompileCharacterClass and CompileToCharSet return for the
    // source of each. They take the place of what the syntax tree has. This and the next one are about the dialect
    // `Regress`.
    ensures source { (ctx : Context) → ctx.dialect ≡ Regress → (p : Pattern) (t rest : Source) (derived : IsPattern ctx p t rest) → IsComparable ctx.setting p →
        (text : List ℕ) → All IsCodePoint text → (fuel : ℕ) → length text < fuel → (index : ℕ) → index ≤ length text →
        compile_pattern fuel ctx.setting.table ctx.setting.flags (with_char_sets ctx p t rest derived) text index
        ≡ option_map (state_on text) (slice_get
        (meaning ctx.setting text forwards p (record { position = index; captures = replicate (length (names p)) None })) 0) }

    // So a search finds the same with them.
    ensures search { (ctx : Context) → ctx.dialect ≡ Regress → (p : Pattern) (t rest : Source) (derived : IsPattern ctx p t rest) → IsComparable ctx.setting p →
        (text : List ℕ) → All IsCodePoint text → (index : ℕ) → index ≤ length text →
        builtin_exec ctx.setting (with_char_sets ctx p t rest derived) text index ≡ builtin_exec ctx.setting p text index }

    // In the dialect `Ecma`, without exception: with these CharSets, from an index, as RegExpBuiltinExec begins.
    ensures in_ecma { (ctx : Context) → ctx.dialect ≡ Ecma → IsOfUnicode ctx.setting.table →
        (ctx.setting.flags.unicode_sets ≡ true → ctx.setting.flags.unicode ≡ true) →
        (p : Pattern) (t rest : Source) (derived : IsPattern ctx p t rest) → NoneConflict p → (text : List ℕ) → All IsCodePoint text →
        (fuel : ℕ) → length text < fuel → (index : ℕ) → index ≤ length text →
        compile_pattern fuel ctx.setting.table ctx.setting.flags (with_char_sets ctx p t rest derived) text index
        ≡ option_map (state_on text) (slice_get
        (meaning ctx.setting text forwards p (record { position = index; captures = replicate (length (names p)) None })) 0) }

    // A class ends where its parse node does, in both dialects.
    ensures ends { (ctx : Context) → HasCaseDataOfUnicode ctx.setting.table →
        (ctx.setting.flags.unicode_sets ≡ true → ctx.setting.flags.unicode ≡ true) →
        (t rest : Source) (a : Atom) → head_at ctx (char "[" ∷ t) ≡ Some (single a, rest) → (node : CharacterClass)
        × (character_class_at ctx.setting.table (class_parameters ctx) ctx.setting.flags.unicode_sets t ≡ Some (node, rest)) }

    // Each syntax tree of the grammar of `Regress` has the flags in force, and quantifiers in order.
    ensures proper { (ctx : Context) → ctx.dialect ≡ Regress → (p : Pattern) (t rest : Source) → IsPattern ctx p t rest → IsProper ctx.setting.flags p }

    // The table of `unicode_tables` is such a table.
    ensures unicode { IsOfUnicode unicode_table }

    // From an index, with all groups unset, as RegExpBuiltinExec begins.
    ensures pattern { (setting : Setting) (p : Pattern) → IsComparable setting p → (text : List ℕ) → All IsCodePoint text →
        (fuel : ℕ) → length text < fuel → (index : ℕ) → index ≤ length text →
        compile_pattern fuel setting.table setting.flags p text index
        ≡ option_map (state_on text) (slice_get
        (meaning setting text forwards p (record { position = index; captures = replicate (length (names p)) None })) 0) }
{}

/// States the theorem that in the dialect `Ecma` a class is accepted exactly where ECMA-262 accepts it (section 22.2.1 with its
/// early errors, and B.1.2).
///
/// `ClassRanges` has the grammar of the standard for classes without the flag v, and `ClassSetExpressions` for classes with it.
/// They refer to no production of the other crates, but for properties by name. Sources are code points. With the flag v
/// classes nest up to a limit.
///
/// The function does nothing at run time; call it where a proof needs the theorem.
pub fn accepts_what_ecma_accepts()
    // What is accepted, ECMA-262 derives without an early error; the parse node is the one that `character_class_at` has.
    ensures accepted { (table : Table) (parameters : Parameters) → parameters.dialect ≡ Ecma → (t rest : Source) → All IsCodePoint t →
        (inverted : Bool) (members : List Bounds) → class_at table parameters t ≡ Some ((inverted, members), rest) →
        (node : CharacterClass) × IsAcceptedClass table parameters.unicode parameters.named node (char "[" ∷ t) rest
        × (character_class_at table parameters false t ≡ Some (node, rest)) × (node.invert ≡ inverted) }

    // What ECMA-262 derives without an early error is accepted, with the same parse node and the same rest.
    ensures derived { (table : Table) (parameters : Parameters) → parameters.dialect ≡ Ecma → (t rest : Source) → All IsCodePoint t →
        (node : CharacterClass) → IsAcceptedClass table parameters.unicode parameters.named node (char "[" ∷ t) rest →
        (character_class_at table parameters false t ≡ Some (node, rest))
        × ((members : List Bounds) × (class_at table parameters t ≡ Some ((node.invert, members), rest))) }

    // With the flag v, the same of a table whose properties of strings have strings, as those of Unicode: by their names such
    // properties may contain strings. The limit counts the class and those in it.
    ensures accepted_with_v { (table : Table) → HasPropertiesOfStrings table → (parameters : Parameters) → parameters.dialect ≡ Ecma →
        parameters.unicode ≡ true → (t rest : Source) (inverted : Bool) (value : Value) →
        class_set_at table parameters t ≡ Some ((inverted, value), rest) →
        (node : CharacterClass) × IsAcceptedClassSet table parameters.named node (char "[" ∷ t) rest × (depth node.contents < max_nesting_depth)
        × (character_class_at table parameters true t ≡ Some (node, rest)) × (node.invert ≡ inverted) }

    ensures derived_with_v { (table : Table) (parameters : Parameters) → parameters.dialect ≡ Ecma → parameters.unicode ≡ true →
        (t rest : Source) (node : CharacterClass) → IsAcceptedClassSet table parameters.named node (char "[" ∷ t) rest →
        depth node.contents < max_nesting_depth → (character_class_at table parameters true t ≡ Some (node, rest))
        × ((value : Value) × (class_set_at table parameters t ≡ Some ((node.invert, value), rest))) }

    // The table of `unicode_tables` is such a table.
    ensures properties { HasPropertiesOfStrings unicode_table }
{}
