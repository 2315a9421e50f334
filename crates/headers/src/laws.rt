ghost use Rattle.headers.specs.Laws.{MainOnward, OneHeader, PartOnward, SomeMain, SomePart};

/// A header has one list of segments and one ending.
pub fn one_header()
    ensures { OneHeader }
{}

/// From every place some header begins.
pub fn some_header()
    ensures main { SomeMain }
    ensures part { SomePart }
{}

/// Every segment ends behind its marker, and in the codestream.
pub fn segments_onward()
    ensures main { MainOnward }
    ensures part { PartOnward }
{}
