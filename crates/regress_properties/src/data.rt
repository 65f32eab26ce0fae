//! The constants, made by tools/make_unicode_tables.
pub(super) mod intervals;
pub(super) mod names;
pub(super) mod strings;
