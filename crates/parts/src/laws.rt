ghost use Rattle.parts.specs.InForce.{SomePieceIsInForce, PiecesLastUpToTheNext};

/// Of pieces in order one is in force at each tick, the last that has begun, and each is up to the next.
pub fn one_piece_is_in_force()
    ensures some { SomePieceIsInForce }
    ensures until_the_next { PiecesLastUpToTheNext }
{}
