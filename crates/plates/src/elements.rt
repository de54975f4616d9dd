//! The elements that a plate opens, and how far the innermost one has come.

ghost use Rattle.std.specs.Prelude.{◌≡◌, Bool, true, false};
ghost use Rattle.plates.specs.Elements.{element_name, is_gradient};

#[derive(Clone, Copy, PartialEq, Eq, Debug, Default)]
pub enum Element {
    Svg,
    // It fills the unused places of a plate's names.
    #[default]
    G,
    Defs,
    Mask,
    Pattern,
    LinearGradient,
    RadialGradient,
}

/// How far the innermost open element has come.
#[derive(Clone, Copy, PartialEq, Eq, Debug)]
pub enum Stage {
    /// Its start tag is unfinished, and no gradient went into it.
    Fresh,
    /// Its start tag is unfinished, and a gradient went into it.
    Filled,
    /// Its start tag is finished; also where nothing is open.
    Body,
}

impl Element {
    /// The name as it is written.
    pub fn name(self) -> &'static [u8]
        ensures { result.now ≡ element_name self }
    {
        match self {
            Element::Svg => b"svg",
            Element::G => b"g",
            Element::Defs => b"defs",
            Element::Mask => b"mask",
            Element::Pattern => b"pattern",
            Element::LinearGradient => b"linearGradient",
            Element::RadialGradient => b"radialGradient",
        }
    }

    pub fn is_gradient(self) -> bool
        ensures { result ≡ is_gradient self }
    {
        matches!(self, Element::LinearGradient | Element::RadialGradient)
    }
}
