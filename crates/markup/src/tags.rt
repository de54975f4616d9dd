//! An element being written: its unfinished start tag, and its body.
//!
//! Both are linear: each is moved on or ended, exactly once. So no attribute comes after the first content, no element ends
//! twice, and none is left open: such code does not pass the check. The pen is passed at each call.

ghost use Rattle.std.specs.Prelude.{◌≡◌, [], ◌∷◌, ◌++◌, length, codes, nat_lt};
ghost use Rattle.markup.specs.Attributes.{attribute, attributes_then};
ghost use Rattle.markup.specs.Pens.{after};
ghost use Rattle.markup.specs.State.{state};
ghost use Rattle.markup.specs.Tags.{begun, end_tag, first_text};
ghost use Rattle.markup.specs.Elements.{name_of, has_content, ending};
ghost use Rattle.markup.specs.Escapes.{text_then};

use crate::attributes::write_attribute;
use crate::escapes::Escaped;
use crate::pens::Pen;
use crate::quotes::Quote;
use crate::texts::Content;
use crate::values::Shown;
use stores::Store;

/// An unfinished start tag. It takes attributes.
pub struct Tag {
    name: &'static [u8],
}

/// An element whose start tag is finished. It takes content.
pub struct Body {
    name: &'static [u8],
}

/// An element that may have got content.
pub enum Begun {
    Tag(Tag),
    Body(Body),
}

impl Tag {
    /// Begins an element.
    pub fn start<S: Store>(pen: &mut Pen<S>, name: &'static [u8]) -> Tag
        ensures named { result.name.now ≡ name.now }
        ensures wrote { state S.Store pen.new ≡ after (state S.Store pen.old) (begun name.now) }
    {
        pen.byte(b'<');
        pen.bytes(name);
        Tag { name }
    }

    /// One attribute more.
    pub fn attribute<S: Store, V: Shown>(
        &self,
        pen: &mut Pen<S>,
        quote: Quote,
        name: &[u8],
        value: &V,
    )
        ensures { state S.Store pen.new ≡ after (state S.Store pen.old) (attributes_then (attribute quote name.now (V.Shown.shown value.now) ∷ []) []) }
    {
        write_attribute(pen, quote, name, value);
    }

    /// Finishes the start tag, before content.
    pub fn body<S: Store>(self, pen: &mut Pen<S>) -> Body
        ensures named { result.name.now ≡ self.name.now }
        ensures wrote { state S.Store pen.new ≡ after (state S.Store pen.old) (codes ">") }
    {
        let Tag { name } = self;
        pen.byte(b'>');
        Body { name }
    }

    /// A text as first content. An empty text is none.
    pub fn text<S: Store>(self, pen: &mut Pen<S>, text: &[u8]) -> Begun
        ensures named { (name_of result).now ≡ self.name.now }
        ensures turned { has_content result ≡ nat_lt 0 (length text.now) }
        ensures wrote { state S.Store pen.new ≡ after (state S.Store pen.old) (first_text text.now) }
    {
        if text.is_empty() {
            return Begun::Tag(self);
        }
        let body = self.body(pen);
        body.text(pen, text);
        Begun::Body(body)
    }

    /// Ends the element, which has no content.
    pub fn end<S: Store>(self, pen: &mut Pen<S>)
        ensures { state S.Store pen.new ≡ after (state S.Store pen.old) (codes "/>") }
    {
        let Tag { name: _ } = self;
        pen.bytes(b"/>");
    }
}

impl Body {
    /// More text.
    pub fn text<S: Store>(&self, pen: &mut Pen<S>, text: &[u8])
        ensures { state S.Store pen.new ≡ after (state S.Store pen.old) (text_then text.now []) }
    {
        Escaped {
            pen,
            escape: Content,
        }
        .write(text);
    }

    /// Ends the element.
    pub fn end<S: Store>(self, pen: &mut Pen<S>)
        ensures { state S.Store pen.new ≡ after (state S.Store pen.old) (end_tag self.name.now) }
    {
        let Body { name } = self;
        pen.bytes(b"</");
        pen.bytes(name);
        pen.byte(b'>');
    }
}

impl Begun {
    /// Ends the element: in its start tag where it got no content.
    pub fn end<S: Store>(self, pen: &mut Pen<S>)
        ensures { state S.Store pen.new ≡ after (state S.Store pen.old) (ending self) }
    {
        match self {
            Begun::Tag(tag) => tag.end(pen),
            Begun::Body(body) => body.end(pen),
        }
    }
}
