//! Ids and references, each with the prefix of its call before the id.

ghost use Rattle.std.specs.Prelude.{◌≡◌, ◌++◌, codes};

use crate::escapes::Escaped;
use crate::quotes::Quote;
use crate::values::Shown;
use stores::Store;

/// An id with the prefix of its call before it.
#[derive(Clone, Copy, PartialEq, Eq, Debug)]
pub struct PrefixedId<'p, 'i> {
    pub prefix: &'p [u8],
    pub id: &'i [u8],
}

impl<'p, 'i> Shown for PrefixedId<'p, 'i> {
    ghost shown = { λ v. v.prefix.now ++ v.id.now };

    fn show<S: Store>(&self, out: &mut Escaped<'_, S, Quote>) {
        out.write(self.prefix);
        out.write(self.id);
    }
}

/// A reference to a paint, a clip path, a mask or a filter: `url(#id)`.
#[derive(Clone, Copy, PartialEq, Eq, Debug)]
pub struct FuncIri<'p, 'i>(pub PrefixedId<'p, 'i>);

impl<'p, 'i> Shown for FuncIri<'p, 'i> {
    ghost shown = { λ v. codes "url(#" ++ (v.0.prefix.now ++ (v.0.id.now ++ codes ")")) };

    fn show<S: Store>(&self, out: &mut Escaped<'_, S, Quote>) {
        out.write(b"url(#");
        self.0.show(out);
        out.write(b")");
    }
}

// Kept: a type for each, since one with the texts around the id as fields would be no shorter and would take any texts.
/// A link to an element: `#id`.
#[derive(Clone, Copy, PartialEq, Eq, Debug)]
pub struct Iri<'p, 'i>(pub PrefixedId<'p, 'i>);

impl<'p, 'i> Shown for Iri<'p, 'i> {
    ghost shown = { λ v. codes "#" ++ (v.0.prefix.now ++ v.0.id.now) };

    fn show<S: Store>(&self, out: &mut Escaped<'_, S, Quote>) {
        out.write(b"#");
        self.0.show(out);
    }
}
