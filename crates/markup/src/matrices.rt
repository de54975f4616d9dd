//! Matrices: `matrix(` and six rounded numbers, joined by spaces, and `)`.

ghost use Rattle.std.specs.Prelude.{◌≡◌, map};
ghost use Rattle.markup.specs.Matrices.{matrix_text, is_identity, numbers_of, rounded_at};

use crate::elidables::Elidable;
use crate::escapes::Escaped;
use crate::lists::Joined;
use crate::numbers::Rounded;
use crate::quotes::Quote;
use crate::values::Shown;
use drawing::rows::Transform;
use stores::Store;

/// A transform, to be shown at a precision.
#[derive(Clone, Copy, PartialEq, Debug)]
pub struct Matrix {
    pub transform: Transform,
    pub precision: u8,
}

impl Matrix {
    /// The six numbers, in the order in which they are shown.
    fn numbers(&self) -> [Rounded; 6]
        ensures { result ≡ map (rounded_at self.now.precision) (numbers_of self.now.transform) }
    {
        let precision = self.precision;
        let Transform {
            sx,
            ky,
            kx,
            sy,
            tx,
            ty,
        } = self.transform;
        [sx, ky, kx, sy, tx, ty].map(|value| Rounded { value, precision })
    }
}

impl Shown for Matrix {
    ghost shown = { λ m. matrix_text m.precision (numbers_of m.transform) };

    fn show<S: Store>(&self, out: &mut Escaped<'_, S, Quote>) {
        out.write(b"matrix(");
        Joined {
            items: &self.numbers(),
            separator: b" ",
        }
        .show(out);
        out.write(b")");
    }
}

impl Elidable for Matrix {
    ghost plain = { λ m. let t = m.transform in is_identity t.sx t.ky t.kx t.sy t.tx t.ty };

    fn is_default(&self) -> bool {
        self.transform == Transform::identity()
    }
}
