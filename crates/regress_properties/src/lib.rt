//! The properties of Unicode that patterns name, complete for one version of Unicode: sets of code points and of
//! strings. They are constants, of which only what is looked up is copied.
#![tactic(auto)]

mod data;
mod ends;
mod lists;
mod lookup;
mod properties;
mod sets;
mod texts;

pub use properties::{
    binary, general_category, id_continue, id_start, script, script_extensions,
    strings_with_property,
};
