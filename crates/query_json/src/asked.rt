//! Which package and version a query asks for.

ghost use Rattle.std.specs.Prelude.{◌≡◌, option_map};
ghost use Rattle.osv_prim.specs.Results.{Gives, or_refuse};
ghost use Rattle.query_json.specs.Members.{if_there, package_members_in};
ghost use Rattle.query_json.specs.Queries.{asked_by, by_name, by_url, one_version, package_of, read_purl, url_of};

use crate::fault::QueryFault;
use crate::members::PackageMembers;
use osv_prim::{PackageKey, Stop, Text};
use purl_name::{Purl, PurlFault};
use std::alloc::Global;

// A package, and a version of it.
#[derive(Drop)]
pub struct Asked {
    pub key: PackageKey,
    pub version: Option<Text>,
}

pub fn url_of<'a>(package: Option<PackageMembers<'a>>) -> Option<&'a str>
    ensures { option_map (λ t. t.now) result ≡ url_of (option_map package_members_in «package».entry) }
{
    match package {
        Some(members) => members.purl,
        None => None,
    }
}

pub fn purl_of(alloc: Global, text: Option<&str>) -> Result<Option<Purl>, Stop<QueryFault>>
    ensures { Gives (λ p. p) result (if_there QueryFault.BadPurl read_purl (option_map (λ t. t.now) text.entry)) }
{
    let Some(text) = text else {
        return Ok(None);
    };
    match Purl::read(alloc, text) {
        Ok(purl) => Ok(Some(purl)),
        Err(PurlFault::BadPurl) => Err(Stop::Refused(QueryFault::BadPurl)),
        Err(PurlFault::Memory) => Err(Stop::Memory),
    }
}

fn copy_of(alloc: Global, text: Option<&str>) -> Result<Option<Text>, Stop<QueryFault>>
    ensures { Gives (λ t. t) result (Ok (option_map (λ t. t.now) text.entry)) }
{
    match text {
        Some(text) => Ok(Some(Text::copy_of(alloc, text)?)),
        None => Ok(None),
    }
}

// The version of the package URL or of the query, where not both have one.
fn one_version(
    alloc: Global,
    of_url: Option<Text>,
    version: Option<&str>,
) -> Result<Option<Text>, Stop<QueryFault>>
    ensures { Gives (λ v. v) result (one_version of_url (option_map (λ v. v.now) version.entry)) }
{
    let Some(of_url) = of_url else {
        return copy_of(alloc, version);
    };
    match version {
        Some(_) => Err(Stop::Refused(QueryFault::BadPackage)),
        None => Ok(Some(of_url)),
    }
}

#[tactic(auto, unfolding(crate::specs::Queries::by_url))]
fn by_url(
    alloc: Global,
    members: PackageMembers,
    purl: Purl,
    version: Option<&str>,
) -> Result<Asked, Stop<QueryFault>>
    ensures { Gives (λ a. a) result (by_url (package_members_in members.entry) purl (option_map (λ v. v.now) version.entry)) }
{
    if members.name.is_some() || members.ecosystem.is_some() {
        return Err(Stop::Refused(QueryFault::BadPackage));
    }
    let version = one_version(alloc, purl.version, version)?;
    Ok(Asked {
        key: purl.key,
        version,
    })
}

#[tactic(auto, unfolding(crate::specs::Queries::by_name))]
fn by_name(
    alloc: Global,
    members: PackageMembers,
    version: Option<&str>,
) -> Result<Asked, Stop<QueryFault>>
    ensures { Gives (λ a. a) result (by_name (package_members_in members.entry) (option_map (λ v. v.now) version.entry)) }
{
    let Some(ecosystem) = members.ecosystem else {
        return Err(Stop::Refused(QueryFault::BadPackage));
    };
    let Some(name) = members.name else {
        return Err(Stop::Refused(QueryFault::BadPackage));
    };
    let key = PackageKey::normal(alloc, ecosystem, name)?;
    let version = copy_of(alloc, version)?;
    Ok(Asked { key, version })
}

fn asked_by(
    alloc: Global,
    members: PackageMembers,
    version: Option<&str>,
    purl: Option<Purl>,
) -> Result<Asked, Stop<QueryFault>>
    ensures { Gives (λ a. a) result (asked_by (package_members_in members.entry) (option_map (λ v. v.now) version.entry) purl) }
{
    match purl {
        Some(purl) => by_url(alloc, members, purl, version),
        None => by_name(alloc, members, version),
    }
}

// The package that a query asks for, where it names one.
#[tactic(auto, unfolding(crate::specs::Queries::package_of))]
pub fn package_of(
    alloc: Global,
    package: Option<PackageMembers>,
    version: Option<&str>,
    purl: Option<Purl>,
) -> Result<Option<Asked>, Stop<QueryFault>>
    ensures { Gives (λ a. a) result (package_of (option_map package_members_in «package».entry) (option_map (λ v. v.now) version.entry) purl) }
{
    match package {
        Some(members) => Ok(Some(asked_by(alloc, members, version, purl)?)),
        None => Ok(None),
    }
}
