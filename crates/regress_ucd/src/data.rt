//! The constants, made by tools/make_unicode_tables.
pub(super) mod cases;
