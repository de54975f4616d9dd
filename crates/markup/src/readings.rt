//! What is promised of what is written, as XML. Each of these functions only names a theorem; its contract is the theorem.

ghost use Rattle.markup.specs.Readings.{OneMeaning, ReadsBack};
ghost use Rattle.markup.specs.Encodings.{EscapesOfBytes, FromBytes};
ghost use Rattle.markup.specs.Checks.{Checks};
ghost use Rattle.markup.specs.Samples.{Samples};
ghost use Rattle.markup.specs.Growth.{Growth, GrowthOfNames, ClosingMarks, LegalSteps, EncodedSoFar, ReadsBackUnfinished};

/// No text means two things by XML 1.0.
pub fn one_meaning_stands()
    ensures { OneMeaning }
{}

/// Every well-formed forest, rendered, reads back by XML 1.0, and as nothing but itself.
pub fn reads_back_stands()
    ensures { ReadsBack }
{}

/// Writers escape the bytes of a text; that gives the bytes of the text escaped.
pub fn escapes_of_bytes_stand()
    ensures escapes { EscapesOfBytes }
    ensures decoded { FromBytes }
{}

/// While elements are open, each step of writing appends its bytes to those before.
pub fn growth_stands()
    ensures bytes { Growth }
    ensures names { GrowthOfNames }
    ensures legal { LegalSteps }
    ensures encoded { EncodedSoFar }
{}

/// The bytes so far and the closing marks are the rendering of the forest with every open element ended.
pub fn closing_marks_stand()
    ensures { ClosingMarks }
{}

/// So they read back as that forest, and as nothing else.
pub fn unfinished_reads_back_stands()
    ensures { ReadsBackUnfinished }
{}

/// The tests of names, attributes and forests that compute say exactly when these are well-formed.
pub fn checks_stand()
    ensures { Checks }
{}

/// Known texts read as they should, and others have no reading.
pub fn samples_stand()
    ensures { Samples }
{}
