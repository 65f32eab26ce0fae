//! The canvas on which a picture is drawn.
ghost use Rattle.std.specs.Prelude.{◌≡◌, ◌<◌, ◌+◌, ◌++◌, All, IfOk, OnOk, OnErr, codes, string_bytes};
ghost use Rattle.regress_svg.specs.Links.{IsLinkedDocument};
ghost use Rattle.regress_svg.specs.Markup.{IsDocument, element_bytes, group_tag, unlinked, root_tag};

use crate::element::Element;
use crate::escape::Escaped;
use crate::link::{Area, write_links};
use std::alloc::{AllocError, Global};
use std::marker::Model;

/// The attributes of a picture without links.
const UNLINKED: &str = "role=\"img\"";

/// The attributes of a picture with links. In a graphic of the role `img` assistive technologies do not reach links.
const DOCUMENT: &str = "role=\"graphics-document\" aria-roledescription=\"diagram\"";

/// A picture with links.
#[derive(Drop)]
pub struct Linked {
    /// The picture, an SVG document.
    pub text: String,
    /// Of each link, in order, the line that it leads to.
    pub lines: Vec<usize>,
}

/// A picture that is drawn element by element. A later element is above the earlier ones. A call of `draw`,
/// `open_group` or `close_group` that returns an error changes nothing, and may be repeated.
#[derive(Drop)]
pub struct Sheet {
    alloc: Global,
    width: u32,
    height: u32,
    /// What is drawn.
    text: String,
    /// The number of open groups.
    depth: usize,
    /// The areas that are to be links.
    areas: Vec<Area>,
}

impl Model for Sheet {
    ghost use Rattle.std.specs.Prelude.{◌++◌, string_bytes};
    ghost use Rattle.regress_svg.specs.Markup.{Drawn, IsUnfinished, unlinked, root_tag};

    ghost Value = { Drawn };

    ghost view = { λ sheet. record { depth = sheet.depth; written = root_tag unlinked sheet.width sheet.height ++ string_bytes sheet.text } };

    ghost invariant = { λ sheet. IsUnfinished sheet.depth (string_bytes sheet.text) };
}

impl Sheet {
    /// Returns an empty picture of this width and height, in user units.
    pub fn new(alloc: Global, width: u32, height: u32) -> Sheet
        ensures depth { result.depth ≡ 0 }
        ensures written { result.written ≡ root_tag unlinked width height }
    {
        Sheet {
            alloc,
            width,
            height,
            text: String::new(alloc),
            depth: 0,
            areas: Vec::new(alloc),
        }
    }

    /// Returns the number of open groups.
    pub fn depth(&self) -> usize
        ensures { result ≡ self.now.depth }
    {
        self.depth
    }

    /// Draws an element in the innermost open group.
    ///
    /// # Errors
    /// Returns [`AllocError`] if an allocation fails. The picture is unchanged.
    pub fn draw(&mut self, element: Element<'_>) -> Result<(), AllocError>
        ensures depth { OnOk result (self.new.depth ≡ self.old.depth) }
        ensures written { OnOk result (self.new.written ≡ self.old.written ++ element_bytes element.entry) }
        ensures failed { OnErr result (self.new ≡ self.old) }
    {
        let markup = format!(in self.alloc; "{element}")?;
        self.text.push_str(&markup)?;
        Ok(())
    }

    /// Opens a group, `g`, of this class. It contains everything that is drawn until it is closed.
    ///
    /// # Errors
    /// Returns [`AllocError`] if an allocation fails. The picture is unchanged.
    pub fn open_group(&mut self, class: &str) -> Result<(), AllocError>
        ensures depth { OnOk result (self.new.depth ≡ self.old.depth + 1) }
        ensures written { OnOk result (self.new.written ≡ self.old.written ++ group_tag class.now) }
        ensures failed { OnErr result (self.new ≡ self.old) }
    {
        let class = Escaped(class);
        let tag = format!(in self.alloc; "<g class=\"{class}\">")?;
        self.text.push_str(&tag)?;
        self.depth += 1;
        Ok(())
    }

    /// Closes the innermost open group.
    ///
    /// # Preconditions
    /// At least one group is open.
    ///
    /// # Errors
    /// Returns [`AllocError`] if an allocation fails. The picture is unchanged.
    pub fn close_group(&mut self) -> Result<(), AllocError>
        requires { 0 < self.old.depth }
        ensures depth { OnOk result (self.new.depth + 1 ≡ self.old.depth) }
        ensures written { OnOk result (self.new.written ≡ self.old.written ++ codes "</g>") }
        ensures failed { OnErr result (self.new ≡ self.old) }
    {
        self.text.push_str("</g>")?;
        self.depth -= 1;
        Ok(())
    }

    /// Returns the allocator of the picture.
    pub fn alloc(&self) -> Global {
        self.alloc
    }

    /// Adds an area that is to be a link if [`Sheet::finish_with_links`] finishes the picture. What is added later is
    /// above what was added before.
    ///
    /// # Errors
    /// Returns [`AllocError`] if an allocation fails. The picture is unchanged.
    pub fn add_area(&mut self, area: Area) -> Result<(), AllocError>
        ensures { self.new ≡ self.old }
    {
        self.areas.push(area)?;
        Ok(())
    }

    /// Returns the whole picture, an SVG document without links.
    ///
    /// # Preconditions
    /// No group is open.
    ///
    /// # Errors
    /// Returns [`AllocError`] if an allocation fails. The picture is dropped.
    pub fn finish(self) -> Result<String, AllocError>
        requires { self.depth ≡ 0 }
        ensures document { IfOk result (λ text. IsDocument (string_bytes text)) }
        ensures written { IfOk result (λ text. string_bytes text ≡ self.written ++ codes "</svg>") }
    {
        let mut text = root_tag(self.alloc, UNLINKED, self.width, self.height)?;
        text.push_str(&self.text)?;
        text.push_str("</svg>")?;
        Ok(text)
    }

    /// Returns the whole picture, with a link over each area that leads to one of the first `count` lines.
    ///
    /// # Preconditions
    /// No group is open.
    ///
    /// # Errors
    /// Returns [`AllocError`] if an allocation fails. The picture is dropped.
    pub fn finish_with_links(self, count: usize) -> Result<Linked, AllocError>
        requires { self.depth ≡ 0 }
        ensures document { IfOk result (λ picture. IsLinkedDocument picture.lines.items (string_bytes picture.text)) }
        ensures lines { IfOk result (λ picture. All (λ line. line < count) picture.lines.items) }
    {
        let mut text = root_tag(self.alloc, DOCUMENT, self.width, self.height)?;
        text.push_str(&self.text)?;
        let lines = write_links(self.alloc, &self.areas, count, &mut text)?;
        text.push_str("</svg>")?;
        Ok(Linked { text, lines })
    }
}

/// Returns the start tag of a picture.
fn root_tag(alloc: Global, attributes: &str, width: u32, height: u32) -> Result<String, AllocError>
    ensures { IfOk result (λ tag. string_bytes tag ≡ root_tag attributes.now width height) }
{
    format!(in alloc;
        "<svg xmlns=\"http://www.w3.org/2000/svg\" viewBox=\"0 0 {width} {height}\" width=\"{width}\" height=\"{height}\" {attributes}>"
    )
}
