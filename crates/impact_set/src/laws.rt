//! Laws of sets, each the contract of a function that does nothing.

ghost use Rattle.std.specs.Prelude.{◌≡◌, ℕ, ◌<◌, ◌↔◌, List, length, take, IsTrue};
ghost use Rattle.osv_prim.specs.Graphs.{id_at, joined, IsAffected, IsLegal};
ghost use Rattle.osv_prim.specs.declared.event.Event.{Event};
ghost use Rattle.osv_prim.specs.declared.oid.CommitRow.{CommitRow};
ghost use Rattle.impact_set.specs.Standing.{Known, StandsFor, is_member};

/// The members of a set that stands for a range and a graph are exactly the commits that the range
/// affects by walks through the graph.
pub fn the_members_are_the_affected_commits()
    ensures { (graph : List CommitRow) → IsLegal graph → (events : List Event) (known : Known) → StandsFor events graph known
        → (k : ℕ) → k < length graph → IsTrue (is_member known k) ↔ IsAffected graph events (id_at graph k) }
{}

/// When rows are joined to the graph for which a set stands, the set stands for the first rows of the
/// larger graph, as `extend` asks.
pub fn a_set_stands_for_the_first_rows_of_a_grown_graph()
    ensures { (graph rows : List CommitRow) (events : List Event) (known : Known) → StandsFor events graph known
        → StandsFor events (take (length known.reached) (joined graph rows)) known }
{}
