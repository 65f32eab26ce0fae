//! The theorem that without u few characters differ.
ghost use Rattle.std.specs.Prelude.{◌≡◌, ◌≤◌, ℕ, Bool, true, false, List};
ghost use Rattle.regress_base.specs.Intervals.{Bounds, code_point_max, is_member};
ghost use Rattle.regress_base.specs.Table.{Table};
ghost use Rattle.regress_base.specs.declared.types.Flags.{Flags};
ghost use Rattle.regress_tree.specs.Assertions.{differ};
ghost use Rattle.regress_syntax.specs.Meaning.{is_in_class};
ghost use Rattle.regress_ecma.specs.CharacterMatchers.{is_found};
ghost use Rattle.regress_ecma.specs.Differences.{HasCaseDataOfUnicode, unlike};

/// States the theorem that with the flag i and without u a class has the same characters as in ECMA-262, but for the 78 of
/// `unlike`: so on a text without these no class differs. The table has the case data of Unicode.
///
/// The function does nothing at run time; call it where a proof needs the theorem.
pub fn few_characters_differ_without_u()
    // `is_found` is the test of CharacterSetMatcher.
    ensures { (table : Table) → HasCaseDataOfUnicode table →
        (flags : Flags) → flags.icase ≡ true → flags.unicode ≡ false → flags.unicode_sets ≡ false →
        (inverted : Bool) (members : List Bounds) (c : ℕ) → c ≤ code_point_max → is_member unlike c ≡ false →
        differ inverted (is_found table flags members c) ≡ is_in_class table flags inverted members c }
{}
