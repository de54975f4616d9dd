//! What several kinds of row have in common: ids, references, texts, lists of numbers, transforms, fills and strokes.
//!
//! Each function tests one rule over its entries in order; the answer is the first fault, as `specs/Rows` lists them.

ghost use Rattle.std.specs.Prelude.{◌≡◌};
ghost use Rattle.checks.specs.Entries.{first_at};
ghost use Rattle.checks.specs.Rows.{number_if_any, id_fields, reference_fields, reference_if_any, text_fields, number_list, transform_fields, paint_fields, fill_fields, dash_fields, stroke_fields};

use crate::entries::{Checker, Entry};
use crate::numbers::Domain;
use drawing::faults::AttributeFault;
use drawing::names::AId;
use drawing::rows::{Fill, Paint, Place, Stroke, Transform};
use drawing::tables::part;

impl Checker<'_> {
    /// A number, if there is one.
    pub fn check_number_if_any(
        &self,
        attribute: AId,
        domain: Domain,
        x: Option<f32>,
    ) -> Result<(), AttributeFault>
        ensures { result ≡ first_at self.now.rule (number_if_any attribute domain x) }
    {
        let Some(x) = x else { return Ok(()) };
        self.check_number(attribute, domain, x)
    }

    /// A row's own id.
    pub fn check_id(&self, id: Place) -> Result<(), AttributeFault>
        ensures { result ≡ first_at self.now.rule (id_fields self.now.drawing.now id) }
    {
        self.check_place(self.drawing.pool, id)?;
        self.check_entry(Some(AId::Id), Entry::OwnId(part(self.drawing.pool, id)))
    }

    /// A reference to an id.
    pub fn check_reference(&self, attribute: AId, id: Place) -> Result<(), AttributeFault>
        ensures { result ≡ first_at self.now.rule (reference_fields self.now.drawing.now attribute id) }
    {
        self.check_place(self.drawing.pool, id)?;
        self.check_entry(
            Some(attribute),
            Entry::ReferencedId(part(self.drawing.pool, id)),
        )
    }

    /// A reference to an id, if there is one.
    pub fn check_reference_if_any(
        &self,
        attribute: AId,
        id: Option<Place>,
    ) -> Result<(), AttributeFault>
        ensures { result ≡ first_at self.now.rule (reference_if_any self.now.drawing.now attribute id) }
    {
        let Some(id) = id else { return Ok(()) };
        self.check_reference(attribute, id)
    }

    /// A text of the pool.
    pub fn check_pool_text(&self, attribute: Option<AId>, text: Place) -> Result<(), AttributeFault>
        ensures { result ≡ first_at self.now.rule (text_fields self.now.drawing.now attribute text) }
    {
        self.check_place(self.drawing.pool, text)?;
        self.check_entry(attribute, Entry::Text(part(self.drawing.pool, text)))
    }

    /// A list of numbers.
    pub fn check_number_list(
        &self,
        attribute: AId,
        domain: Domain,
        list: Place,
    ) -> Result<(), AttributeFault>
        ensures { result ≡ first_at self.now.rule (number_list self.now.drawing.now attribute domain list) }
    {
        self.check_list(self.drawing.numbers, list, |x| {
            self.check_number(attribute, domain, *x)
        })
    }

    /// The six numbers of a transform.
    pub fn check_transform(
        &self,
        attribute: AId,
        transform: Transform,
    ) -> Result<(), AttributeFault>
        ensures { result ≡ first_at self.now.rule (transform_fields attribute transform) }
    {
        self.check_number(attribute, Domain::Rounded, transform.sx)?;
        self.check_number(attribute, Domain::Rounded, transform.ky)?;
        self.check_number(attribute, Domain::Rounded, transform.kx)?;
        self.check_number(attribute, Domain::Rounded, transform.sy)?;
        self.check_number(attribute, Domain::Rounded, transform.tx)?;
        self.check_number(attribute, Domain::Rounded, transform.ty)
    }

    fn check_paint(&self, attribute: AId, paint: Paint) -> Result<(), AttributeFault>
        ensures { result ≡ first_at self.now.rule (paint_fields self.now.drawing.now attribute paint) }
    {
        match paint {
            Paint::Color(_) => Ok(()),
            Paint::LinearGradient(place) | Paint::RadialGradient(place) | Paint::Pattern(place) => {
                self.check_reference(attribute, place)
            }
        }
    }

    pub fn check_fill(&self, fill: Option<Fill>) -> Result<(), AttributeFault>
        ensures { result ≡ first_at self.now.rule (fill_fields self.now.drawing.now fill) }
    {
        let Some(fill) = fill else { return Ok(()) };
        self.check_paint(AId::Fill, fill.paint)?;
        self.check_number(AId::FillOpacity, Domain::Fraction, fill.opacity)
    }

    fn check_dasharray(&self, dasharray: Option<Place>) -> Result<(), AttributeFault>
        ensures { result ≡ first_at self.now.rule (dash_fields self.now.drawing.now dasharray) }
    {
        let Some(list) = dasharray else { return Ok(()) };
        self.check_entry(Some(AId::StrokeDasharray), Entry::NotEmpty(list.count))?;
        self.check_number_list(AId::StrokeDasharray, Domain::AtLeastZero, list)
    }

    pub fn check_stroke(&self, stroke: Option<Stroke>) -> Result<(), AttributeFault>
        ensures { result ≡ first_at self.now.rule (stroke_fields self.now.drawing.now stroke) }
    {
        let Some(stroke) = stroke else { return Ok(()) };
        self.check_paint(AId::Stroke, stroke.paint)?;
        self.check_dasharray(stroke.dasharray)?;
        self.check_number(AId::StrokeDashoffset, Domain::Bare, stroke.dashoffset)?;
        self.check_number(AId::StrokeMiterlimit, Domain::AtLeastOne, stroke.miterlimit)?;
        self.check_number(AId::StrokeOpacity, Domain::Fraction, stroke.opacity)?;
        self.check_number(AId::StrokeWidth, Domain::AboveZero, stroke.width)
    }
}
