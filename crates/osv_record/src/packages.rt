ghost use Rattle.std.specs.Prelude.{◌≡◌, option_map};
ghost use Rattle.osv_prim.specs.Results.{Gives};
ghost use Rattle.json_view.specs.Views.{node_value};
ghost use Rattle.osv_record.specs.Reading.{package_of, key_of};

use crate::fault::RecordFault;
use crate::members::full_text;
use json_view::Node;
use osv_prim::{PackageKey, Stop};
use std::alloc::Global;

fn key_of(alloc: Global, node: Node) -> Result<PackageKey, Stop<RecordFault>>
    ensures { Gives (λ k. k) result (key_of (node_value node.entry)) }
{
    let ecosystem = full_text(node.member("ecosystem"), RecordFault::BadPackage)?;
    let name = full_text(node.member("name"), RecordFault::BadPackage)?;
    Ok(PackageKey::normal(alloc, ecosystem, name)?)
}

#[tactic(auto, unfolding(crate::specs::Reading::package_of))]
pub fn package_of(
    alloc: Global,
    found: Option<Node>,
) -> Result<Option<PackageKey>, Stop<RecordFault>>
    ensures { Gives (λ p. p) result (package_of (option_map node_value found.entry)) }
{
    match found {
        Some(node) => Ok(Some(key_of(alloc, node)?)),
        None => Ok(None),
    }
}
