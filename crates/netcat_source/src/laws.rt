// Laws of the definitions.
ghost use Rattle.netcat_source.specs.Lines.{OneCut};
ghost use Rattle.netcat_source.specs.Pieces.{AnyPieces, FeedingCuts};

/// A text is cut into lines in one way.
pub fn one_cut()
    ensures { OneCut }
{}

/// Whatever the pieces of a text, feeding them to a cutter brings the lines and the end of the whole, and so the same as
/// any other pieces; also where lines that `Lines::whole` found in a piece were passed over.
pub fn pieces_cut()
    ensures whole { FeedingCuts }
    ensures same { AnyPieces }
{}
