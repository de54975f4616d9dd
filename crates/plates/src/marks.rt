//! What the calls on a plate write: its own tags.

ghost use Rattle.std.specs.Prelude.{◌≡◌, [], ◌++◌};
ghost use Rattle.markup.specs.Attributes.{attributes_then};
ghost use Rattle.markup.specs.Pens.{after};
ghost use Rattle.markup.specs.State.{state};
ghost use Rattle.plates.specs.Elements.{quote_of, id_attributes, namespaces};
ghost use Rattle.plates.specs.Closing.{start_tag, finish, ending};

use crate::elements::{Element, Stage};
use drawing::options::WriteOptions;
use markup::attributes::write_attribute;
use markup::pens::{Pen, Writing};
use markup::quotes::Quote;
use markup::references::PrefixedId;
use markup::values::Fixed;
use stores::Store;

/// What opens an element: the end of the start tag around it, where that is unfinished, and its own start tag, which stays
/// unfinished.
#[derive(Drop)]
pub struct Opening<'a> {
    pub around: Stage,
    pub options: &'a WriteOptions<'a>,
    pub element: Element,
    pub id: &'a [u8],
}

impl Opening<'_> {
    fn quote(&self) -> Quote
        ensures { result ≡ quote_of self.now.options.now }
    {
        if self.options.use_single_quote {
            Quote::Single
        } else {
            Quote::Double
        }
    }

    /// The id with its prefix; an empty id writes nothing.
    fn write_id<S: Store>(&self, pen: &mut Pen<S>)
        ensures { state S.Store pen.new ≡ after (state S.Store pen.old) (attributes_then (id_attributes self.now.options.now self.now.id.now) []) }
    {
        if !self.id.is_empty() {
            let value = PrefixedId {
                prefix: self.options.prefix(),
                id: self.id,
            };
            write_attribute(pen, self.quote(), b"id", &value);
        }
    }

    fn write_namespaces<S: Store>(&self, pen: &mut Pen<S>)
        ensures { state S.Store pen.new ≡ after (state S.Store pen.old) (attributes_then (namespaces (quote_of self.now.options.now) self.now.element) []) }
    {
        if self.element == Element::Svg {
            let quote = self.quote();
            write_attribute(pen, quote, b"xmlns", &Fixed(b"http://www.w3.org/2000/svg"));
            write_attribute(
                pen,
                quote,
                b"xmlns:xlink",
                &Fixed(b"http://www.w3.org/1999/xlink"),
            );
        }
    }

    fn write_start<S: Store>(&self, pen: &mut Pen<S>)
        ensures { state S.Store pen.new ≡ after (state S.Store pen.old) (start_tag self.now.options.now self.now.element self.now.id.now) }
    {
        pen.bytes(b"<");
        pen.bytes(self.element.name());
        self.write_id(pen);
        self.write_namespaces(pen);
    }
}

impl Writing for Opening<'_> {
    ghost bytes = { λ o. finish o.around ++ start_tag o.options.now o.element o.id.now };

    fn write<S: Store>(&self, pen: &mut Pen<S>) {
        match self.around {
            Stage::Fresh | Stage::Filled => pen.bytes(b">"),
            Stage::Body => {}
        }
        self.write_start(pen);
    }
}

/// What ends the innermost element.
#[derive(Drop)]
pub struct Ending {
    pub stage: Stage,
    pub element: Element,
}

impl Writing for Ending {
    ghost bytes = { λ e. ending e.stage e.element };

    fn write<S: Store>(&self, pen: &mut Pen<S>) {
        match self.stage {
            Stage::Fresh | Stage::Filled => pen.bytes(b"/>"),
            Stage::Body => {
                pen.bytes(b"</");
                pen.bytes(self.element.name());
                pen.bytes(b">");
            }
        }
    }
}
