ghost use Rattle.std.specs.Prelude.{List, ◌∷◌, ◌++◌, option_map};
ghost use Rattle.std.specs.Arc.{arc_value};
ghost use Rattle.std.specs.Option.{option_to_list};
ghost use Rattle.std.specs.List.{AllZip};
ghost use Rattle.osv_record.specs.Advisories.{Advisory};
ghost use Rattle.history.specs.declared.past.Past.{Past};
ghost use Rattle.impact_job.specs.Tables.{AreSetsOf};

use commit_graph::Graph;
use impact_set::ImpactSet;
use osv_prim::{List, RepoKey};
use osv_record::Record;
use piece_work::Piece;
use record_moves::Moves;
use std::sync::Arc;

/// What a snapshot keeps of its imports: the last import of each id, ascending by id, the graph of each
/// repository, by its first rows, and for each of these advisories the sets of affected commits of its GIT
/// ranges, by entry and range. A repository without rows has the empty graph.
#[derive(Drop)]
pub struct Tables {
    /// How many imports they are of.
    pub upto: u64,
    pub records: Arc<Vec<Arc<Record>>>,
    pub repos: Arc<Vec<(RepoKey, Arc<Graph>)>>,
    pub sets: Vec<List<Arc<ImpactSet>>>,
}

/// What a build is to do for a GIT range.
#[derive(Drop)]
pub enum Todo {
    /// Nothing: neither its advisory nor its repository came anew, and the set that it had stays.
    Carried(Arc<ImpactSet>),
    /// Its set is to be made anew, or to be extended.
    Piece(Piece),
}

/// What a build is to make: the tables of its imports but for the sets, and what is to be done for each of
/// these, by advisory, entry and range.
#[derive(Drop)]
pub struct Plan {
    /// How many imports it is of.
    pub upto: u64,
    pub records: Arc<Vec<Arc<Record>>>,
    pub repos: Arc<Vec<(RepoKey, Arc<Graph>)>>,
    /// Where the advisories of the tables before are among these.
    pub moves: Moves,
    /// How many GIT ranges each advisory has, and so how many sets.
    pub counts: Vec<u32>,
    pub todo: Vec<Todo>,
}

impl Plan {
    ghost use Rattle.std.specs.Prelude.{◌≡◌, length};
    ghost use Rattle.impact_job.specs.Tables.{plan_upto};

    /// How many imports the build is of.
    pub fn upto(&self) -> u64
        ensures { result ≡ plan_upto self.now }
    {
        self.upto
    }

    /// How many pieces the build has: one for each GIT range, also where its set is carried on.
    pub fn pieces(&self) -> usize
        ensures { result ≡ length self.now.todo.items }
    {
        self.todo.len()
    }
}

/// A plan with the sets that its pieces made.
#[derive(Drop)]
pub struct Filled {
    pub plan: Arc<Plan>,
    /// For each GIT range the set that its piece made; none where the plan carries one on.
    pub made: Vec<Option<Arc<ImpactSet>>>,
}

impl Filled {
    ghost use Rattle.std.specs.Prelude.{◌≡◌};
    ghost use Rattle.impact_job.specs.Tables.{filled_upto};

    /// How many imports the build is of.
    pub fn upto(&self) -> u64
        ensures { result ≡ filled_upto self.now }
    {
        self.plan.upto
    }
}

/// Of the sets of advisories those of the first one, and those of later ones.
pub fn first_sets(sets: &[List<Arc<ImpactSet>>]) -> (&[Arc<ImpactSet>], &[List<Arc<ImpactSet>>])
    ensures { (p : List Past) (r : Advisory) (more : List Advisory) → AllZip (AreSetsOf p) (r ∷ more) sets.now → AreSetsOf p r result.0.now × AllZip (AreSetsOf p) more result.1.now }
{
    match sets.split_first() {
        None => (&[], sets),
        Some((own, later)) => (own.as_slice(), later),
    }
}

/// The sets behind those of an advisory, where it is there.
pub(crate) fn without<'s>(
    sets: &'s [List<Arc<ImpactSet>>],
    found: Option<&Arc<Record>>,
) -> &'s [List<Arc<ImpactSet>>]
    ensures { (b : List Past) (more : List Advisory) → AllZip (AreSetsOf b) (option_to_list (option_map (λ a. arc_value a.now) found.entry) ++ more) sets.now → AllZip (AreSetsOf b) more result.now }
{
    match found {
        None => sets,
        Some(_) => first_sets(sets).1,
    }
}
