//! The members of a query as texts, or the refusal of the first that has the wrong type.

ghost use Rattle.std.specs.Prelude.{◌≡◌, option_map};
ghost use Rattle.serde_json.specs.Find.{as_str};
ghost use Rattle.osv_prim.specs.Results.{Gives, or_refuse};
ghost use Rattle.json_view.specs.Views.{node_value};
ghost use Rattle.query_json.specs.Members.{as_itself, if_there, is_empty_text, members_in, members_of, members_of_package, package_members, package_members_in, package_under, text_under, there};

use crate::fault::{Member, QueryFault};
use json_view::Node;
use osv_prim::Stop;

// The members of `package` that are there.
#[derive(Clone, Copy)]
pub struct PackageMembers<'a> {
    pub name: Option<&'a str>,
    pub ecosystem: Option<&'a str>,
    pub purl: Option<&'a str>,
}

// The members of a query that are there.
#[derive(Clone, Copy)]
pub struct Members<'a> {
    pub commit: Option<&'a str>,
    pub package: Option<PackageMembers<'a>>,
    pub version: Option<&'a str>,
    pub page_token: Option<&'a str>,
}

fn is_empty_text(text: Option<&str>) -> bool
    ensures { result ≡ is_empty_text (option_map (λ t. t.now) text.entry) }
{
    match text {
        Some(text) => text.is_empty(),
        None => false,
    }
}

// What an object has under a name, where that is neither null nor the empty text.
fn there<'t, 'a>(object: Node<'t, 'a>, name: &str) -> Option<Node<'t, 'a>>
    ensures { option_map node_value result ≡ there name.now (node_value object.entry) }
{
    let Some(node) = object.member(name) else {
        return None;
    };
    if is_empty_text(node.as_str()) {
        return None;
    }
    Some(node)
}

#[tactic(auto, unfolding(crate::specs::Members::text_under))]
fn text_under<'a>(
    object: Node<'_, 'a>,
    name: &str,
    member: Member,
) -> Result<Option<&'a str>, Stop<QueryFault>>
    ensures { Gives (option_map (λ t. t.now)) result (text_under name.now member (node_value object.entry)) }
{
    let Some(node) = there(object, name) else {
        return Ok(None);
    };
    match node.as_str() {
        Some(text) => Ok(Some(text)),
        None => Err(Stop::Refused(QueryFault::WrongType(member))),
    }
}

pub fn object_or(node: Node, fault: QueryFault) -> Result<(), Stop<QueryFault>>
    ensures { Gives (λ _. node_value node.entry) result (or_refuse fault (as_itself (node_value node.entry))) }
{
    if node.is_object() {
        Ok(())
    } else {
        Err(Stop::Refused(fault))
    }
}

#[tactic(auto, unfolding(crate::specs::Members::package_under))]
fn package_under<'t, 'a>(object: Node<'t, 'a>) -> Result<Option<Node<'t, 'a>>, Stop<QueryFault>>
    ensures { Gives (option_map node_value) result (package_under (node_value object.entry)) }
{
    let Some(node) = there(object, "package") else {
        return Ok(None);
    };
    object_or(node, QueryFault::WrongType(Member::Package))?;
    Ok(Some(node))
}

fn members_of_package<'a>(node: Node<'_, 'a>) -> Result<PackageMembers<'a>, Stop<QueryFault>>
    ensures { Gives package_members_in result (members_of_package (node_value node.entry)) }
{
    let name = text_under(node, "name", Member::Name)?;
    let ecosystem = text_under(node, "ecosystem", Member::Ecosystem)?;
    let purl = text_under(node, "purl", Member::Purl)?;
    Ok(PackageMembers {
        name,
        ecosystem,
        purl,
    })
}

#[tactic(auto, unfolding(crate::specs::Members::package_members))]
fn package_members<'a>(
    object: Option<Node<'_, 'a>>,
) -> Result<Option<PackageMembers<'a>>, Stop<QueryFault>>
    ensures { Gives (option_map package_members_in) result (package_members (option_map node_value object.entry)) }
{
    match object {
        Some(node) => Ok(Some(members_of_package(node)?)),
        None => Ok(None),
    }
}

#[tactic(auto, unfolding(crate::specs::Members::members_of))]
pub fn members_of<'a>(node: Node<'_, 'a>) -> Result<Members<'a>, Stop<QueryFault>>
    ensures { Gives members_in result (members_of (node_value node.entry)) }
{
    object_or(node, QueryFault::NotObject)?;
    let commit = text_under(node, "commit", Member::Commit)?;
    let object = package_under(node)?;
    let version = text_under(node, "version", Member::Version)?;
    let page_token = text_under(node, "page_token", Member::PageToken)?;
    let package = package_members(object)?;
    Ok(Members {
        commit,
        package,
        version,
        page_token,
    })
}
