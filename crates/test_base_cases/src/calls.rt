//! Dispatches calls by their names.

use crate::{intervals, lookups, plain, searches, sets, tables, unicode, utf8, whole};
use regress_unicode::Tables;
use test_notation::Call;

/// Makes the call with this name over these tables, and returns whether there is one.
pub fn response(call: &mut Call, name: &str, tables: &Tables) -> bool {
    match name {
        "by" => {
            let mappings = call.field();
            let name = call.field();
            match tables::table_of(call, mappings, "") {
                Some(tables) => response_over(call, name, &tables),
                None => true,
            }
        }
        "entry" => {
            let sets = call.field();
            if let Some(tables) = tables::table_of(call, "", sets) {
                lookups::listed_set(call, "general_category", &tables);
            }
            true
        }
        _ => response_over(call, name, tables),
    }
}

fn response_over(call: &mut Call, name: &str, tables: &Tables) -> bool {
    sets::response(call, name)
        || intervals::response(call, name)
        || searches::response(call, name)
        || utf8::response(call, name)
        || plain::response(call, name)
        || tables::response(call, name)
        || unicode::response(call, name, tables)
        || lookups::response(call, name, tables)
        || whole::response(call, name, tables)
}
