//! The style sheet of a page.

use crate::markup::{Markup, Written};
use regress_outline::Part;
use regress_parse::Span;
use std::alloc::{AllocError, Global};

/// The style sheet without the rule that marks parts. It contains no character that is escaped in markup.
const STYLE: &str = "\
:root{color-scheme:light dark;--page:#fff;--ink:#1f2328;--dim:#57606a;--edge:#d0d7de;\
--panel:#f6f8fa;--on:#ffe58f;--glow:#b45309;--hit:#b6e3ff;--rim:#0969da}\
@media (prefers-color-scheme:dark){:root{--page:#0d1117;--ink:#e6edf3;--dim:#9198a1;--edge:#30363d;\
--panel:#161b22;--on:#3a2c00;--glow:#f0b429;--hit:#0c4a7c;--rim:#388bfd}}\
body{margin:0;background:var(--page);color:var(--ink);font:16px/1.5 system-ui,sans-serif}\
main{max-width:68rem;margin:auto;padding:0 1rem 2rem}\
h2{font-size:1rem;margin:1.5rem 0 .5rem}\
p,code{font:14px/1.6 ui-monospace,SF Mono,Menlo,Cascadia Mono,DejaVu Sans Mono,Liberation Mono,Consolas,\
monospace;white-space:pre-wrap;overflow-wrap:anywhere}\
p{margin:0;padding:.6rem .8rem;background:var(--panel);border:1px solid var(--edge);border-radius:6px}\
figure{margin:0;overflow-x:auto;border:1px solid var(--edge);border-radius:6px}\
figure svg{display:block}\
ul{list-style:none;margin:0;padding:0}\
ul ul{margin-left:.5rem;padding-left:.8rem;border-left:1px solid var(--edge)}\
div{padding:.05rem .4rem}\
code{background:var(--panel);border:1px solid var(--edge);border-radius:4px;padding:0 .3rem}\
small,footer,a{color:var(--dim)}\
footer{margin-top:2rem;font-size:.85rem}\
:focus-visible{outline:2px solid var(--rim);outline-offset:1px}\
.area{fill:none;pointer-events:all}svg :focus-visible{outline:none}:focus-visible .area{stroke:var(--rim);stroke-width:3}\
p+figure{box-sizing:border-box;width:fit-content;max-width:100%;margin-top:.6rem}\
table{border-collapse:collapse;border-style:hidden;font-size:.9rem}\
th,td{border:1px solid var(--edge);padding:.2rem .6rem;text-align:left;vertical-align:top;white-space:pre-wrap}\
th{background:var(--panel);white-space:nowrap}\
mark{background:var(--hit);color:inherit;border-radius:3px;box-shadow:inset 0 0 0 1px var(--rim)}\
mark:empty{border-left:2px solid var(--glow)}\
.m{border-radius:4px}\
.m:not(g){filter:none!important}\
@media print{:root{color-scheme:light}main{max-width:none}figure{overflow:visible;border:0}\
figure svg{max-width:100%;height:auto}th,td{white-space:pre-wrap;overflow-wrap:anywhere}li,tr{break-inside:avoid}a{text-decoration:none}}";

/// The declarations for the parts that are marked: a background in the text, and a glow in the diagram.
const MARKED: &str = "{background:var(--on);filter:drop-shadow(0 0 4px var(--glow))}";

/// Writes the style sheet, with a selector for each part.
pub(crate) fn write_style(parts: &[Part], page: &mut Markup) -> Written {
    page.text(STYLE)?;
    select_all(parts, page)?;
    page.text(".none")?;
    page.text(MARKED)
}

#[cycle(select_all)]
fn select_all(parts: &[Part], page: &mut Markup) -> Written {
    for part in parts {
        select(part, page)?;
    }
    Ok(())
}

/// Writes the selectors of a part and of those inside: a part is marked if something of it is pointed at, focused or the
/// target of a link, and nothing of a part inside is.
#[cycle(select_all)]
fn select(part: &Part, page: &mut Markup) -> Written {
    let Span { start, end } = part.span;
    let class = format!(in page.alloc(); ".s{start}-{end}")?;
    page.text(&selector_of(page.alloc(), &class)?)?;
    select_all(&part.parts, page)
}

/// Returns the selector of the elements of a class.
fn selector_of(alloc: Global, class: &str) -> Result<String, AllocError> {
    let pointed_at = ":is(:hover,:focus-within,:target)";
    [
        "main:has(",
        class,
        pointed_at,
        "):not(:has(",
        class,
        " .m:not(",
        class,
        ")",
        pointed_at,
        ")) ",
        class,
        ",",
    ]
    .concat(alloc)
}
