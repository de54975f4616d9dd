//! A drawing: lent lists of rows, and what stands at a place in one of them.
//!
//! Every view is total: a row past its list is the default row, and a place past its list is what is left of it. So
//! whatever looks at a drawing asks nothing of its caller, and its contract is an equation for all arguments.

ghost use Rattle.std.specs.Prelude.{◌≡◌, slice_get};
ghost use Rattle.std.specs.Option.{UnwrapsOrElse};
ghost use Rattle.drawing.specs.Tables.{
  entries,
  node_at,
  group_at,
  path_at,
  image_at,
  text_at,
  gradient_at,
};

use crate::rows::{
    BaseGradient, BaselineShift, FontFamily, Group, Image, Path, PathSegment, Place, Stop, Text,
    TextChunk, TextSpan,
};

/// What a node is, and so which list its row is in.
#[derive(Clone, Copy, Debug, Default, PartialEq, Eq)]
pub enum Kind {
    #[default]
    Group,
    Path,
    Image,
    Text,
}

/// Nodes stand in preorder: a node's descendants are the nodes after it, up to but without its end.
#[derive(Clone, Copy, Debug, Default, PartialEq, Eq)]
pub struct Node {
    pub kind: Kind,
    /// In the list of its kind.
    pub row: usize,
    pub end: usize,
}

/// The lists of a drawing.
// Kept: lists that places name, and no tree of boxes, since these libraries take no allocator.
#[derive(Clone, Copy, Debug, Default, PartialEq)]
pub struct Drawing<'a> {
    pub nodes: &'a [Node],
    pub groups: &'a [Group],
    pub paths: &'a [Path],
    pub images: &'a [Image],
    pub texts: &'a [Text],
    pub chunks: &'a [TextChunk],
    pub spans: &'a [TextSpan],
    pub segments: &'a [PathSegment],
    pub numbers: &'a [f32],
    /// Ids, as places in `pool`.
    pub references: &'a [Place],
    pub families: &'a [FontFamily],
    pub shifts: &'a [BaselineShift],
    pub gradients: &'a [BaseGradient],
    pub stops: &'a [Stop],
    pub pool: &'a [u8],
}

/// What a place names in a list.
pub fn part<T>(list: &[T], place: Place) -> &[T]
    ensures { result.now ≡ entries list.now place }
{
    let rest = list.get(place.start..).unwrap_or_default();
    rest.get(..place.count).unwrap_or(rest)
}

/// The row of that number, the default row where the list has none.
fn row_at<T: Copy + Default>(list: &[T], row: usize) -> T
    ensures { UnwrapsOrElse (slice_get list.now row) T.is_default result }
{
    list.get(row).copied().unwrap_or_default()
}

#[tactic(auto, using(crate::proofs::Views::row_or))]
impl Drawing<'_> {
    /// The node of that number.
    pub fn node(&self, index: usize) -> Node
        ensures { result ≡ node_at self.now index }
    {
        row_at(self.nodes, index)
    }

    /// The group in that row.
    pub fn group(&self, row: usize) -> Group
        ensures { result ≡ group_at self.now row }
    {
        row_at(self.groups, row)
    }

    /// The path in that row.
    pub fn path(&self, row: usize) -> Path
        ensures { result ≡ path_at self.now row }
    {
        row_at(self.paths, row)
    }

    /// The image in that row.
    pub fn image(&self, row: usize) -> Image
        ensures { result ≡ image_at self.now row }
    {
        row_at(self.images, row)
    }

    /// The text in that row.
    pub fn text(&self, row: usize) -> Text
        ensures { result ≡ text_at self.now row }
    {
        row_at(self.texts, row)
    }

    /// The gradient in that row.
    pub fn gradient(&self, row: usize) -> BaseGradient
        ensures { result ≡ gradient_at self.now row }
    {
        row_at(self.gradients, row)
    }
}
