//! A page that is written piece by piece.
ghost use Rattle.std.specs.Prelude.{◌≡◌, ◌++◌, [], OnOk, IfOk, string_bytes};
ghost use Rattle.regress_svg.specs.Escape.{escaped_text};
ghost use Rattle.regress_svg.specs.Links.{IsLinkedDocument};
ghost use Rattle.regress_explain.specs.Page.{element_bytes, name_of, tag_bytes};
ghost use Rattle.regress_explain.specs.Written.{Adds, IsAnything};

use regress_parse::Span;
use regress_svg::{Escaped, Linked};
use std::alloc::{AllocError, Global};
use std::marker::Model;

/// An element without attributes.
#[derive(Clone, Copy)]
pub(crate) enum Element {
    /// A part of the page with a heading.
    Section,
    Heading,
    /// A text in which white space is kept.
    Paragraph,
    /// A picture or a table.
    Figure,
    Items,
    Item,
    /// What is written in the pattern.
    Code,
    Small,
    /// A match.
    Mark,
    /// A line of the explanation.
    Division,
    /// A part of the pattern.
    Inline,
    /// How the page was made.
    Footer,
    /// A reference to another place of the page.
    Link,
    Table,
    /// A line of a table.
    Row,
    /// The name of a column.
    ColumnHead,
    Cell,
}

impl Element {
    fn name(self) -> &'static str
        ensures { result.now ≡ name_of self }
    {
        match self {
            Element::Section => "section",
            Element::Heading => "h2",
            Element::Paragraph => "p",
            Element::Figure => "figure",
            Element::Items => "ul",
            Element::Item => "li",
            Element::Code => "code",
            Element::Small => "small",
            Element::Mark => "mark",
            Element::Division => "div",
            Element::Inline => "span",
            Element::Footer => "footer",
            Element::Link => "a",
            Element::Table => "table",
            Element::Row => "tr",
            Element::ColumnHead => "th",
            Element::Cell => "td",
        }
    }
}

/// A tag, or several, of a page.
#[derive(Clone, Copy)]
pub(crate) enum Tag {
    /// The start of the page, up to its title.
    Head,
    /// What is between the title and the style sheet.
    Style,
    /// What follows the style sheet.
    Body,
    /// The end of the page.
    End,
    /// The start of a figure with the picture. It scrolls, also by keys, if it is wider than the page; so does the next.
    Diagram,
    /// The start of a figure with the table of matches.
    Matches,
    Open(Element),
    Close(Element),
    /// The start of a part of the pattern with this span.
    Part(Span),
    /// The start of the line with this number of the explanation, of a part with this span.
    Line(Span, usize),
    /// The start of a link to the part of the pattern with this span.
    To(Span),
    /// The start of a link to the link with this number in the picture.
    ToPicture(usize),
}

/// Returns the markup of a tag.
fn tag_text(alloc: Global, tag: Tag) -> Result<String, AllocError>
    ensures { IfOk result (λ text. string_bytes text ≡ tag_bytes tag) }
{
    match tag {
        Tag::Head => String::from_str(
            alloc,
            "<!DOCTYPE html><html lang=\"en\"><head><meta charset=\"utf-8\"/>\
             <meta name=\"viewport\" content=\"width=device-width\"/><title>",
        ),
        Tag::Style => String::from_str(alloc, "</title><style>"),
        Tag::Body => String::from_str(alloc, "</style></head><body><main>"),
        Tag::End => String::from_str(alloc, "</main></body></html>"),
        Tag::Diagram => String::from_str(
            alloc,
            "<figure tabindex=\"0\" aria-label=\"Railroad diagram\">",
        ),
        Tag::Matches => String::from_str(alloc, "<figure tabindex=\"0\" aria-label=\"Matches\">"),
        Tag::Open(element) => {
            let name = element.name();
            format!(in alloc; "<{name}>")
        }
        Tag::Close(element) => {
            let name = element.name();
            format!(in alloc; "</{name}>")
        }
        Tag::Part(span) => {
            let Span { start, end } = span;
            format!(in alloc; "<span class=\"m s{start}-{end}\" id=\"p{start}-{end}\">")
        }
        Tag::Line(span, number) => format!(in alloc;
            "<div class=\"m s{}-{}\" id=\"l{number}\" tabindex=\"0\">",
            span.start, span.end
        ),
        Tag::To(span) => format!(in alloc; "<a href=\"#p{}-{}\">", span.start, span.end),
        Tag::ToPicture(number) => format!(in alloc; "<a href=\"#d{number}\">"),
    }
}

/// A page that is being written.
#[derive(Drop)]
pub(crate) struct Markup {
    alloc: Global,
    text: String,
}

impl Model for Markup {
    ghost use Rattle.std.specs.Prelude.{ℕ, List, string_bytes};
    ghost use Rattle.regress_explain.specs.Page.{IsPage};

    ghost Value = { List ℕ };

    ghost view = { λ markup. string_bytes markup.text };

    ghost invariant = { λ markup. IsPage (string_bytes markup.text) };
}

/// The result of writing.
pub(crate) type Written = Result<(), AllocError>;

impl Markup {
    /// Returns a page without content.
    pub(crate) fn new(alloc: Global) -> Markup
        ensures { result ≡ [] }
    {
        let text = String::new(alloc);
        Markup { alloc, text }
    }

    /// Returns the allocator of the page.
    pub(crate) fn alloc(&self) -> Global {
        self.alloc
    }

    /// Writes a tag.
    pub(crate) fn tag(&mut self, tag: Tag) -> Written
        ensures { OnOk result (self.new ≡ self.old ++ tag_bytes tag) }
    {
        let tag = tag_text(self.alloc, tag)?;
        self.text.push_str(&tag)
    }

    /// Writes a text, escaped.
    pub(crate) fn text(&mut self, text: &str) -> Written
        ensures { OnOk result (self.new ≡ self.old ++ escaped_text text.now) }
    {
        let text = Escaped(text);
        let text = format!(in self.alloc; "{text}")?;
        self.text.push_str(&text)
    }

    /// Writes an element that contains a text.
    pub(crate) fn element(&mut self, element: Element, text: &str) -> Written
        ensures { OnOk result (self.new ≡ self.old ++ element_bytes element text.now) }
    {
        self.tag(Tag::Open(element))?;
        self.text(text)?;
        self.tag(Tag::Close(element))
    }

    /// Writes the start of a section.
    pub(crate) fn begin_section(&mut self, heading: &str) -> Written
        ensures { OnOk result (Adds IsAnything self.old self.new) }
    {
        self.tag(Tag::Open(Element::Section))?;
        self.element(Element::Heading, heading)
    }

    /// Writes what has been written of another page.
    pub(crate) fn append(&mut self, other: &Markup) -> Written
        ensures anything { OnOk result (Adds IsAnything self.old self.new) }
        ensures other { OnOk result (self.new ≡ self.old ++ other.now) }
    {
        self.text.push_str(&other.text)
    }

    /// Writes a picture.
    ///
    /// # Preconditions
    /// The picture is a document with links to its lines.
    pub(crate) fn picture(&mut self, picture: &Linked) -> Written
        requires { IsLinkedDocument picture.now.lines.items (string_bytes picture.now.text) }
        ensures { OnOk result (self.new ≡ self.old ++ string_bytes picture.now.text) }
    {
        self.text.push_str(&picture.text)
    }

    /// Returns the page.
    pub(crate) fn finish(self) -> String
        ensures { string_bytes result ≡ self }
    {
        self.text
    }
}
