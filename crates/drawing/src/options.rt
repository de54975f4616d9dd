//! The options of one call, as usvg's `WriteOptions` without indents.

ghost use Rattle.std.specs.Prelude.{◌≡◌};
ghost use Rattle.drawing.specs.Options.{defaults, prefix_of};

/// How a call is to write.
#[derive(Clone, Copy, Debug, PartialEq, Eq)]
pub struct WriteOptions<'a> {
    /// Stands before every id and every referenced id.
    pub id_prefix: Option<&'a [u8]>,
    /// Whether text is written as text, and not as its flattened group.
    pub preserve_text: bool,
    /// Digits after the point of coordinates.
    pub coordinates_precision: u8,
    /// Digits after the point of transforms.
    pub transforms_precision: u8,
    /// Whether values stand in single quotes.
    pub use_single_quote: bool,
}

impl Default for WriteOptions<'_> {
    ghost is_default = { λ options. options ≡ defaults };

    /// usvg's defaults: no prefix, flattened text, eight digits, double quotes.
    fn default() -> Self {
        WriteOptions {
            id_prefix: None,
            preserve_text: false,
            coordinates_precision: 8,
            transforms_precision: 8,
            use_single_quote: false,
        }
    }
}

impl WriteOptions<'_> {
    /// The default options.
    pub fn new() -> WriteOptions<'static>
        ensures { result ≡ defaults }
    {
        WriteOptions::default()
    }

    /// The prefix, empty where there is none.
    pub fn prefix(&self) -> &[u8]
        ensures { result.now ≡ prefix_of self.now }
    {
        self.id_prefix.unwrap_or_default()
    }
}
