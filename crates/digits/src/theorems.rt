// What is proved of the definitions, each as the contract of a function that does nothing.
ghost use Rattle.digits.specs.Theorems.{BareStands, DomainStands, KnownTexts, PlainStands, ReadingStands, RoundedStands, WholeStands};

/// The table of known texts, and of floats inside and outside the domains.
pub fn known_texts_stand()
    ensures { KnownTexts }
{}

/// A bare text is the shortest that reads back, the nearest, the larger; and no other text is.
pub fn bare_stands()
    ensures { BareStands }
{}

/// A rounded text is plain, has no more decimals than the precision, and reads as a float close to the number.
pub fn rounded_stands()
    ensures { RoundedStands }
{}

/// The text of a whole number says it, and no other plain text does.
pub fn whole_stands()
    ensures { WholeStands }
{}

/// A plain text has only digits, a point and a minus.
pub fn plain_stands()
    ensures { PlainStands }
{}

/// The domains, over whole numbers.
pub fn domains_stand()
    ensures { DomainStands }
{}

/// A decimal reads as the nearest float, of two as near as the even one.
pub fn reading_stands()
    ensures { ReadingStands }
{}
