//! Laws of pieces, each the contract of a function that does nothing.

ghost use Rattle.std.specs.Prelude.{◌≡◌, List};
ghost use mathlib.Core.List.{IsPrefix};
ghost use Rattle.std.specs.Arc.{arc_value};
ghost use Rattle.history.specs.declared.past.Past.{Past};
ghost use Rattle.history.specs.Prefixes.{graph};
ghost use Rattle.history.specs.Pieces.{repo_of};
ghost use Rattle.piece_work.specs.declared.piece.Piece.{Piece};
ghost use Rattle.piece_work.specs.Works.{IsReady, events_of};
ghost use Rattle.piece_work.specs.Pieces.{IsPieceOf};

/// A piece of a build can be done, and its events are those of its range: the set that is there is that of
/// the range, for the graph or for the first rows of it.
pub fn a_piece_of_a_build_is_ready()
    ensures ready { (piece : Piece) (b p : List Past) → IsPrefix b p → IsPieceOf piece b p → IsReady piece }
    ensures events { (piece : Piece) (b p : List Past) (x : IsPieceOf piece b p) → events_of piece ≡ x.range.extent.events }
    ensures graph { (piece : Piece) (b p : List Past) (x : IsPieceOf piece b p) → arc_value piece.graph ≡ graph p (repo_of x.range) }
{}
