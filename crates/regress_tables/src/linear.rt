//! Programs that are searched in linear time.
ghost use Rattle.std.specs.Prelude.{◌≡◌, IfSome, Some, is_some};
ghost use Rattle.regress_program.specs.Tidy.{is_tabled, table_groups};
ghost use Rattle.regress_code.specs.Code.{code_routines, code_tidy};

use regress_code::Code;
use regress_leaves::known::Known;

/// A program that is searched in linear time, by tables.
#[derive(Clone, Copy)]
pub struct Linear<'c, 'k> {
    /// The program.
    pub(crate) code: &'c Code,
    /// The case mappings.
    pub(crate) known: Known<'k>,
    /// An upper bound for the ids of the groups that lookarounds set, which are below it.
    pub(crate) inner: usize,
    ghost tabled: { table_groups (code_tidy code.now) (code_routines code.now) ≡ Some inner },
}

impl<'c, 'k> Linear<'c, 'k> {
    /// Returns a program under case mappings as one that is searched by tables, each time in linear time.
    ///
    /// The result is `None` if tables do not lead to its matches: if it has a back reference, or if a lookaround that
    /// captures may begin where its groups are set. Programs of well-formed trees have no such lookaround.
    ///
    /// # Examples
    /// ```
    /// let tables = Tables::small(alloc)?;
    /// let points = code_points(alloc, "(a)\\1")?;
    /// let regex = try_parse(alloc, &points, Flags::default(), &tables)?;
    /// let code = Code::compile(alloc, &regex, 1000)?;
    /// let known = Known::new(&tables, regex.flags);
    /// assert!(rt; Linear::new(&code, known).is_none());
    /// ```
    pub fn new(code: &'c Code, known: Known<'k>) -> Option<Linear<'c, 'k>>
        ensures code { IfSome result (λ l. l.code.now ≡ code.now) }
        ensures tables { IfSome result (λ l. l.known.tables.now ≡ known.entry.tables.now) }
        ensures linear { is_some result ≡ is_tabled (code_tidy code.now) (code_routines code.now) }
    {
        let inner = code.table_groups()?;
        Some(Linear { code, known, inner })
    }
}
