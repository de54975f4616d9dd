//! Groups, paths, images and gradients: one rule over the entries of a row, in their order.

ghost use Rattle.std.specs.Prelude.{◌≡◌};
ghost use Rattle.checks.specs.Entries.{first_at};
ghost use Rattle.checks.specs.Rows.{group_fields, point_fields, segment_fields, path_fields, image_fields, stop_fields, base_gradient_fields};

use crate::entries::{Checker, Entry, check_each};
use crate::numbers::Domain;
use drawing::faults::AttributeFault;
use drawing::names::AId;
use drawing::rows::{BaseGradient, Group, Image, Path, PathSegment, Point, Stop};
use drawing::tables::part;

impl Checker<'_> {
    pub fn check_group(&self, group: &Group) -> Result<(), AttributeFault>
        ensures { result ≡ first_at self.now.rule (group_fields self.now.drawing.now group.now) }
    {
        self.check_id(group.id)?;
        self.check_transform(AId::Transform, group.transform)?;
        self.check_number(AId::Opacity, Domain::Fraction, group.opacity)?;
        self.check_reference_if_any(AId::ClipPath, group.clip_path)?;
        self.check_reference_if_any(AId::Mask, group.mask)?;
        self.check_list(self.drawing.references, group.filters, |id| {
            self.check_reference(AId::Filter, *id)
        })
    }

    fn check_point(&self, point: Point) -> Result<(), AttributeFault>
        ensures { result ≡ first_at self.now.rule (point_fields point) }
    {
        self.check_number(AId::D, Domain::Rounded, point.x)?;
        self.check_number(AId::D, Domain::Rounded, point.y)
    }

    fn check_segment(&self, segment: PathSegment) -> Result<(), AttributeFault>
        ensures { result ≡ first_at self.now.rule (segment_fields segment) }
    {
        match segment {
            PathSegment::MoveTo(p) | PathSegment::LineTo(p) => self.check_point(p),
            PathSegment::QuadTo(p1, p) => {
                self.check_point(p1)?;
                self.check_point(p)
            }
            PathSegment::CubicTo(p1, p2, p) => {
                self.check_point(p1)?;
                self.check_point(p2)?;
                self.check_point(p)
            }
            PathSegment::Close => Ok(()),
        }
    }

    pub fn check_path(&self, path: &Path) -> Result<(), AttributeFault>
        ensures { result ≡ first_at self.now.rule (path_fields self.now.drawing.now path.now) }
    {
        let segments = part(self.drawing.segments, path.data);
        self.check_id(path.id)?;
        self.check_fill(path.fill)?;
        self.check_stroke(path.stroke)?;
        self.check_place(self.drawing.segments, path.data)?;
        self.check_entry(Some(AId::D), Entry::BeginsWithMove(segments))?;
        check_each(segments, |segment| self.check_segment(*segment))
    }

    pub fn check_image(&self, image: &Image) -> Result<(), AttributeFault>
        ensures { result ≡ first_at self.now.rule (image_fields self.now.drawing.now image.now) }
    {
        self.check_id(image.id)?;
        self.check_number(AId::Width, Domain::AboveZero, image.width)?;
        self.check_number(AId::Height, Domain::AboveZero, image.height)?;
        self.check_pool_text(Some(AId::Href), image.payload)
    }

    fn check_stop(&self, stop: Stop) -> Result<(), AttributeFault>
        ensures { result ≡ first_at self.now.rule (stop_fields stop) }
    {
        self.check_number(AId::Offset, Domain::Fraction, stop.offset)?;
        self.check_number(AId::StopOpacity, Domain::Fraction, stop.opacity)
    }

    pub fn check_base_gradient(&self, gradient: &BaseGradient) -> Result<(), AttributeFault>
        ensures { result ≡ first_at self.now.rule (base_gradient_fields self.now.drawing.now gradient.now) }
    {
        self.check_transform(AId::GradientTransform, gradient.transform)?;
        self.check_list(self.drawing.stops, gradient.stops, |stop| {
            self.check_stop(*stop)
        })
    }
}
