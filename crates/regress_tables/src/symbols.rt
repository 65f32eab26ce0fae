//! Characters that no leaf of a program tells apart.
ghost use Rattle.std.specs.Prelude.{◌≡◌, ◌≤◌, ◌<◌, ℕ, IfSome, false, slice_index, true};
ghost use Rattle.std.proofs.Props.{props};
ghost use Rattle.regress_prefilter.specs.OneCharacter.{takes_one, test_of};
ghost use Rattle.regress_tree.specs.Tree.{tree};
ghost use Rattle.regress_tables.specs.Symbols.{AreAlike};

use regress_leaves::leaves::{accepts, takes_one};
use regress_leaves::start::Start;
use regress_leaves::test::Test;

/// The largest number of representatives that are listed.
const LISTED: usize = 16;

/// The representatives of ASCII characters: no leaf that matches one character tells the two apart.
#[derive(Drop)]
pub struct Symbols<'t> {
    /// The leaves.
    pub(crate) tests: &'t [Test],
    /// Whether representatives are looked for.
    shared: bool,
    /// For each ASCII character its representative, or 128 if that is not known.
    ascii: [u8; 128],
    /// The first representatives.
    listed: [u8; LISTED],
    /// The number of those.
    count: usize,
    ghost alike: { (c : ℕ) → c < 128 → slice_index ascii c < 128 → AreAlike tests.now c (slice_index ascii c) } by { Prim.hlevel props },
    ghost few: { count ≤ 16 },
}

impl<'t> Symbols<'t> {
    /// Returns what is known before any character has occurred. Without `shared` each character represents itself, which
    /// costs less where the rows that follow are not found directly.
    pub(crate) fn new(tests: &'t [Test], shared: bool) -> Symbols<'t>
        ensures { result.tests.now ≡ tests.now }
    {
        Symbols {
            tests,
            shared,
            ascii: [128; 128],
            listed: [0; LISTED],
            count: 0,
        }
    }

    /// Returns the representative of an ASCII character, if it is known.
    pub(crate) fn known_symbol(&self, c: u8) -> Option<u8>
        requires { c < 128 }
        ensures alike { IfSome result (λ symbol. AreAlike self.now.tests.now c symbol) }
        ensures ascii { IfSome result (λ symbol. symbol < 128) }
    {
        let known = self.ascii[usize::from(c)];
        if known < 128 { Some(known) } else { None }
    }

    /// Returns the representative of a character, which is the character itself beyond ASCII, and if none are shared.
    pub(crate) fn symbol_of(&mut self, c: u32) -> u32
        ensures tests { self.new.tests ≡ self.old.tests }
        ensures alike { AreAlike self.old.tests.now c result }
    {
        if c >= 128 || !self.shared {
            return c;
        }
        let known = self.ascii[c as usize];
        if known < 128 {
            return u32::from(known);
        }
        let found = self.first_alike(c as u8);
        self.ascii[c as usize] = found;
        u32::from(found)
    }

    /// Returns the first representative that no leaf tells from `c`, or `c`, which is then listed if there is room.
    fn first_alike(&mut self, c: u8) -> u8
        ensures tests { self.new.tests ≡ self.old.tests }
        ensures alike { AreAlike self.old.tests.now c result }
    {
        for k in 0..self.count {
            let other = self.listed[k];
            if are_alike(self.tests, c, other) {
                return other;
            }
        }
        if self.count < LISTED {
            self.listed[self.count] = c;
            self.count += 1;
        }
        c
    }
}

/// Returns whether no leaf that matches one character tells the two apart.
fn are_alike(tests: &[Test], a: u8, b: u8) -> bool
    ensures { result ≡ true → AreAlike tests.now a b }
{
    for test in tests {
        if tells_apart(test, a, b) {
            return false;
        }
    }
    true
}

/// Returns whether a leaf matches one character and tells the two apart.
fn tells_apart(test: &Test, a: u8, b: u8) -> bool
    ensures { result ≡ false → takes_one (tree test.now.node) ≡ true → test_of (tree test.now.node) a ≡ test_of (tree test.now.node) b }
{
    if let Start::Ascii(set) = &test.start {
        if a.is_ascii() && b.is_ascii() {
            return set.contains(a) != set.contains(b);
        }
    }
    takes_one(&test.node) && accepts(&test.node, u32::from(a)) != accepts(&test.node, u32::from(b))
}
