//! Links over areas of a picture.
ghost use Rattle.std.specs.Prelude.{IfOk, string_bytes};
ghost use Rattle.regress_svg.specs.Links.{WritesLinks};

use crate::element::Element;
use crate::escape::Escaped;
use std::alloc::{AllocError, Global};
use std::fmt;
use std::fmt::{Formatter, Write};

/// An area of a picture that is to be a link to a line of a list, in a page that has both. The line has the id `l` with
/// its number, and the link the id `d` with its own, each from 0.
#[derive(Drop)]
pub struct Area {
    /// The number of the line.
    pub line: usize,
    /// The class of the link.
    pub class: String,
    /// The name of the link.
    pub title: String,
    /// The left edge.
    pub x: u32,
    /// The upper edge.
    pub y: u32,
    /// The width.
    pub width: u32,
    /// The height.
    pub height: u32,
}

/// A link with a title over an area.
#[derive(Clone, Copy)]
struct Link<'a> {
    number: usize,
    line: usize,
    class: &'a str,
    title: Element<'a>,
    area: Element<'a>,
}

impl fmt::Display for Link<'_> {
    ghost use Rattle.std.specs.Prelude.{Some};
    ghost use Rattle.regress_svg.specs.Links.{link_bytes};
    ghost use Rattle.regress_svg.specs.Markup.{element_bytes};

    ghost output = { λ link. Some (link_bytes link.number link.line link.class.now (element_bytes link.title) (element_bytes link.area)) };

    fn fmt<W: Write>(&self, f: &mut Formatter<W>) -> fmt::Result {
        let Link {
            number,
            line,
            class,
            title,
            area,
        } = *self;
        let class = Escaped(class);
        write!(
            f,
            "<a class=\"{class}\" id=\"d{number}\" href=\"#l{line}\">{title}{area}</a>"
        )
    }
}

/// Writes a link over each area that leads to one of the first `count` lines. Returns the lines.
pub(crate) fn write_links(
    alloc: Global,
    areas: &[Area],
    count: usize,
    text: &mut String,
) -> Result<Vec<usize>, AllocError>
    ensures { IfOk result (λ lines. WritesLinks count lines.items (string_bytes text.old) (string_bytes text.new)) }
{
    let mut lines = Vec::new(alloc);
    for area in areas {
        if area.line >= count {
            continue;
        }
        let link = Link {
            number: lines.len(),
            line: area.line,
            class: &area.class,
            title: Element::Title(&area.title),
            area: Element::Rectangle {
                class: "area",
                x: area.x,
                y: area.y,
                width: area.width,
                height: area.height,
                radius: 4,
            },
        };
        let link = format!(in alloc; "{link}")?;
        text.push_str(&link)?;
        lines.push(area.line)?;
    }
    Ok(lines)
}
