ghost use Rattle.std.specs.Prelude.{◌≡◌, ◌<◌, IfOk, string_bytes};
ghost use Rattle.drill_input.specs.Questions.{asked, package_name, package_question, repo_url};
ghost use Rattle.osv_prim.specs.Repos.{normal_repo};

use crate::draws::Draws;
use osv_prim::{Memory, Oid, PackageKey, RepoKey, Subject, Text};
use std::alloc::Global;

/// How many packages are asked for, and how many commits.
pub const QUESTIONS: u32 = 10;

fn package_name(alloc: Global, number: u32) -> Result<String, Memory>
    ensures { IfOk result (λ t. string_bytes t ≡ package_name number) }
{
    Ok(format!(in alloc; "p{number}")?)
}

/// The question for the package with this number, in version 1.50.0. Only memory can fail.
#[tactic(auto, unfolding(crate::specs::Questions::package_question))]
pub fn package_question(alloc: Global, number: u32) -> Result<Subject, Memory>
    ensures { IfOk result (λ s. s ≡ package_question number) }
{
    let name = package_name(alloc, number)?;
    let key = PackageKey::normal(alloc, "npm", name.as_str())?;
    let version = Text::copy_of(alloc, "1.50.0")?;
    Ok(Subject::Package(key, Some(version)))
}

/// The ten commits that are asked for, behind the advisories of a drill of this size. Only memory can
/// fail.
pub fn asked(alloc: Global, draws: &mut Draws, size: u32) -> Result<Vec<Oid>, Memory>
    requires { 0 < size }
    ensures { IfOk result (λ ids. (ids.items, draws.new) ≡ asked size QUESTIONS draws.old) }
{
    let mut ids = Vec::with_capacity(alloc, QUESTIONS as usize)?;
    for _ in 0..QUESTIONS {
        ids.push(draws.commit(size))?;
    }
    Ok(ids)
}

/// The key of the drill's repository. Only memory can fail.
pub fn repo_key(alloc: Global) -> Result<RepoKey, Memory>
    ensures { IfOk result (λ key. key ≡ normal_repo repo_url) }
{
    RepoKey::normal(alloc, "https://drill.example/r")
}
