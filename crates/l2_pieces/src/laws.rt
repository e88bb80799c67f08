// What it means that a text is cut into pieces: laws without code.
ghost use Rattle.l2_pieces.specs.Laws.{CutLaw, PlaceLaw};

/// The pieces of a text, white space and comments among them, stand one behind another, each at its place, and reach to the text's end or to a fault.
pub fn cut_law()
    ensures { CutLaw }
{}

/// A place behind a text counts its bytes, its lines, and the bytes of its last line.
pub fn place_law()
    ensures { PlaceLaw }
{}
