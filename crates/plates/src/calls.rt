//! The calls on a plate.
//!
//! A call first tests its rules in their order, then writes, and in the end settles: where its bytes and the closing marks
//! owed afterwards do not fit, the store is cut back to where it was.

ghost use Rattle.std.specs.Prelude.{◌≡◌, ℕ, ◌*◌, ◌≤◌, reverse, length};
ghost use Rattle.plates.specs.Closing.{end_tags, closing_marks};
ghost use Rattle.plates.specs.Steps.{blank, answer, next, opens, closes, may_open};
ghost use Rattle.plates.specs.View.{view, Unaltered};

use crate::elements::{Element, Stage};
use crate::marks::{Ending, Opening};
use crate::plates::Plate;
use arrayvec::ArrayVec;
use checks::ids::id_at;
use checks::settings::are_settings;
use drawing::faults::Fault;
use drawing::names::AId;
use drawing::options::WriteOptions;
use markup::pens::Pen;
use stores::Store;

/// The bytes of `/>`.
const SLASH: usize = 2;

/// How many bytes the end tags of these elements have.
fn end_tags_size(names: &[Element]) -> usize
    requires { length names.now ≤ 32 }
    ensures size { result ≡ length (end_tags (reverse names.now)) }
    ensures bound { result ≤ 17 * length names.now }
{
    names.iter().map(|name| name.name().len() + 3).sum()
}

impl<S: Store> Plate<S> {
    /// A plate over a store, which is emptied.
    pub fn new(store: S) -> Plate<S>
        ensures { view S.Store result ≡ blank (S.Store.capacity store) }
    {
        Plate {
            pen: Pen::new(store),
            names: ArrayVec::new(),
            stage: Stage::Body,
        }
    }

    /// Whether an element may be opened now.
    fn may_open(&self) -> bool
        ensures { result ≡ may_open (view S.Store self.now).names }
    {
        !self.names.is_full() && !self.names.last().is_some_and(|name| name.is_gradient())
    }

    /// How many bytes would close everything open.
    pub fn closing_marks(&self) -> usize
        ensures { result ≡ length (closing_marks (view S.Store self.now).stage (view S.Store self.now).names) }
    {
        let Some((_, others)) = self.names.split_last() else {
            return 0;
        };
        match self.stage {
            Stage::Fresh | Stage::Filled => SLASH + end_tags_size(others),
            Stage::Body => end_tags_size(&self.names),
        }
    }

    /// How many bytes are held.
    pub fn held(&self) -> usize
        ensures { result ≡ length (view S.Store self.now).held }
    {
        self.pen.mark()
    }

    /// How many elements are open.
    pub fn depth(&self) -> usize
        ensures { result ≡ length (view S.Store self.now).names }
    {
        self.names.len()
    }

    /// Opens an element: a start tag with its prefixed id, if any, and for `svg` its namespaces.
    pub fn open(&mut self, options: &WriteOptions, element: Element, id: &[u8]) -> Result<(), Fault>
        ensures told { result ≡ answer (view S.Store self.old) (opens options.now element id.now) }
        ensures done { view S.Store self.new ≡ next (view S.Store self.old) (opens options.now element id.now) }
        ensures kept { Unaltered self.old self.new result }
    {
        if !are_settings(options) {
            return Err(Fault::Setting);
        }
        if !self.may_open() {
            return Err(Fault::Moment);
        }
        id_at(AId::Id, id)?;
        let opening = Opening {
            around: self.stage,
            options,
            element,
            id,
        };
        let owed = SLASH + end_tags_size(&self.names);
        // `Full` and `Fault` are other crates' types, so no `From` between them can stand here.
        self.pen.call(&opening, owed).map_err(|_| Fault::Full)?;
        self.names.push(element);
        self.stage = Stage::Fresh;
        Ok(())
    }

    /// Ends the innermost element.
    pub fn close(&mut self) -> Result<(), Fault>
        ensures told { result ≡ answer (view S.Store self.old) closes }
        ensures done { view S.Store self.new ≡ next (view S.Store self.old) closes }
        ensures kept { Unaltered self.old self.new result }
    {
        let Some((innermost, others)) = self.names.split_last() else {
            return Err(Fault::Moment);
        };
        let ending = Ending {
            stage: self.stage,
            element: *innermost,
        };
        let owed = end_tags_size(others);
        self.pen.call(&ending, owed).map_err(|_| Fault::Full)?;
        self.names.pop();
        self.stage = Stage::Body;
        Ok(())
    }

    /// The store, with what it holds.
    pub fn into_store(self) -> S
        ensures { result ≡ self.pen.store }
    {
        let Plate {
            pen,
            names: _,
            stage: _,
        } = self;
        pen.into_store()
    }
}
