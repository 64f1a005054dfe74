//! Laws of the definitions, each the contract of a function that does nothing.

ghost use Rattle.std.specs.Prelude.{ℕ, List, IsTrue, ◌↔◌};
ghost use Rattle.osv_prim.specs.Graphs.{IsAffected, IsLegal};
ghost use Rattle.osv_prim.specs.declared.event.Event.{Event};
ghost use Rattle.osv_prim.specs.declared.oid.CommitRow.{CommitRow};
ghost use Rattle.git_range.specs.Affected.{is_affected};

/// Going from row to row finds a commit affected exactly where walks through the graph say so.
pub fn a_commit_is_affected_exactly_by_walks()
    ensures { (graph : List CommitRow) → IsLegal graph → (events : List Event) (c : List ℕ) → IsTrue (is_affected graph events c) ↔ IsAffected graph events c }
{}
