//! Why a call is refused.
//!
//! A fault carries the rule broken, the attribute it was in and the node, each where there is one. It is passed up whole
//! through three layers: what is wrong with a value becomes a fault of an attribute, that becomes a fault of a node.
//! `Report` in `specs/` maps every fault to its number, word, attribute and node, and the questions below answer by it.

ghost use Rattle.std.specs.Prelude.{◌≡◌};
ghost use Rattle.drawing.specs.Faults.{report, rule_number, rule_word, value_number, value_word, in_attribute, outside_attributes, in_node, outside_nodes, of_node};

use crate::names::AId;

/// A rule that a call can break.
#[derive(Clone, Copy, Debug, PartialEq, Eq)]
pub enum Rule {
    Setting = 1,
    Moment = 2,
    Table = 3,
    Id = 4,
    Empty = 5,
    Number = 6,
    Text = 7,
    Family = 8,
    Full = 9,
}

/// An id against its rule.
#[derive(Clone, Copy, Debug, PartialEq, Eq)]
pub enum IdFault {
    Missing,
    TooLong,
    BadByte,
}

/// A number against its rule.
#[derive(Clone, Copy, Debug, PartialEq, Eq)]
pub enum NumberFault {
    /// It has no text: too large, too small to be shown bare, or no number at all.
    OutsideDomain,
    /// It is shown, but its attribute takes no such number.
    OutOfRange,
}

/// The rule that a value breaks.
#[derive(Clone, Copy, Debug, PartialEq, Eq)]
pub enum ValueFault {
    /// A place that does not lie in its list, or has too many entries.
    Place,
    Id(IdFault),
    Empty,
    Number(NumberFault),
    Text,
    Family,
}

/// A fault with the place in which it was found.
#[derive(Clone, Copy, Debug, PartialEq, Eq)]
pub struct Found<P, F> {
    pub place: P,
    pub fault: F,
}

/// A fault of a value, and its attribute, if it stands in one.
// Kept: a struct for each layer, since one generic in its place would lose the names `attribute` and `node`.
#[derive(Clone, Copy, Debug, PartialEq, Eq)]
pub struct AttributeFault {
    pub attribute: Option<AId>,
    pub fault: ValueFault,
}

/// A fault of an attribute, and its node, if it is in one.
#[derive(Clone, Copy, Debug, PartialEq, Eq)]
pub struct NodeFault {
    pub node: Option<usize>,
    pub fault: AttributeFault,
}

/// Why a call is refused.
#[derive(Clone, Copy, Debug, PartialEq, Eq)]
pub enum Fault {
    /// A precision above 8, or a prefix against its rule.
    Setting,
    /// A call that may not come now.
    Moment,
    /// A table that is no drawing, with the node that was to be drawn.
    Table(Option<usize>),
    /// A value against its rule.
    Value(NodeFault),
    /// The bytes and the closing marks owed afterwards would not fit.
    Full,
}

impl From<Found<AId, ValueFault>> for AttributeFault {
    ghost from_gives = { λ e r. r ≡ in_attribute e };

    fn from(found: Found<AId, ValueFault>) -> AttributeFault {
        AttributeFault {
            attribute: Some(found.place),
            fault: found.fault,
        }
    }
}

impl From<ValueFault> for AttributeFault {
    ghost from_gives = { λ e r. r ≡ outside_attributes e };

    fn from(fault: ValueFault) -> AttributeFault {
        AttributeFault {
            attribute: None,
            fault,
        }
    }
}

impl From<Found<usize, AttributeFault>> for NodeFault {
    ghost from_gives = { λ e r. r ≡ in_node e };

    fn from(found: Found<usize, AttributeFault>) -> NodeFault {
        NodeFault {
            node: Some(found.place),
            fault: found.fault,
        }
    }
}

impl From<AttributeFault> for Fault {
    ghost from_gives = { λ e r. r ≡ outside_nodes e };

    fn from(fault: AttributeFault) -> Fault {
        Fault::Value(NodeFault { node: None, fault })
    }
}

impl From<NodeFault> for Fault {
    ghost from_gives = { λ e r. r ≡ of_node e };

    fn from(fault: NodeFault) -> Fault {
        Fault::Value(fault)
    }
}

impl Rule {
    /// Its number, by which it is recorded.
    pub fn number(self) -> u8
        ensures { result ≡ rule_number self }
    {
        self as u8
    }

    /// Its word.
    // Kept: bytes and no Display, so that a record takes it as it takes `AId::name`.
    pub fn word(self) -> &'static [u8]
        ensures { result.now ≡ rule_word self }
    {
        match self {
            Rule::Setting => b"setting",
            Rule::Moment => b"moment",
            Rule::Table => b"table",
            Rule::Id => b"id",
            Rule::Empty => b"empty",
            Rule::Number => b"number",
            Rule::Text => b"text",
            Rule::Family => b"family",
            Rule::Full => b"full",
        }
    }
}

impl ValueFault {
    fn rule(self) -> Rule
        ensures number { rule_number result ≡ value_number self }
        ensures word { rule_word result ≡ value_word self }
    {
        match self {
            ValueFault::Place => Rule::Table,
            ValueFault::Id(_) => Rule::Id,
            ValueFault::Empty => Rule::Empty,
            ValueFault::Number(_) => Rule::Number,
            ValueFault::Text => Rule::Text,
            ValueFault::Family => Rule::Family,
        }
    }
}

impl Fault {
    /// The rule broken.
    pub fn rule(self) -> Rule
        ensures number { rule_number result ≡ (report self).number }
        ensures word { rule_word result ≡ (report self).word }
    {
        match self {
            Fault::Setting => Rule::Setting,
            Fault::Moment => Rule::Moment,
            Fault::Table(_) => Rule::Table,
            Fault::Value(found) => found.fault.fault.rule(),
            Fault::Full => Rule::Full,
        }
    }

    /// The number of the rule broken.
    pub fn number(self) -> u8
        ensures { result ≡ (report self).number }
    {
        self.rule().number()
    }

    /// Its word.
    pub fn word(self) -> &'static [u8]
        ensures { result.now ≡ (report self).word }
    {
        self.rule().word()
    }

    /// The attribute it was in.
    pub fn attribute(self) -> Option<AId>
        ensures { result ≡ (report self).attribute }
    {
        match self {
            Fault::Value(found) => found.fault.attribute,
            _ => None,
        }
    }

    /// The node it was in.
    pub fn node(self) -> Option<usize>
        ensures { result ≡ (report self).node }
    {
        match self {
            Fault::Table(node) => node,
            Fault::Value(found) => found.node,
            _ => None,
        }
    }
}
