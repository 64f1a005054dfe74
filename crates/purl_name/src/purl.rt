ghost use Rattle.std.specs.Prelude.{◌≡◌, IfOk, Ok, Err};
ghost use Rattle.osv_prim.specs.Results.{Gives};
ghost use Rattle.purl_name.specs.Purls.{key, purl_of, refused};

use crate::decoding::{decoded, namespace_of, version_of};
use crate::naming::{ecosystem_of, kind_of, name_of};
use crate::parts::parts_of;
use osv_prim::{Memory, PackageKey, Stop, Text, base_of};
use std::alloc::Global;

/// The text names no package of the ecosystems that are known here.
#[derive(Clone, Copy, Debug, PartialEq, Eq)]
pub struct NotAPurl;

/// Why a text is not read as a package URL.
#[derive(Clone, Copy, Debug, PartialEq, Eq)]
pub enum PurlFault {
    /// It is no package URL, is of a type that is not known here, has a namespace that its type may not have, or has a
    /// segment, name or version that is empty or no UTF-8 once it is decoded.
    BadPurl,
    /// Want of memory.
    Memory,
}

/// A package and its version, as a package URL names them.
#[derive(Debug, Drop)]
pub struct Purl {
    /// The ecosystem, as the OSV schema names it, and the package's name there.
    pub key: PackageKey,
    /// The version, where the package URL has one.
    pub version: Option<Text>,
}

// The key of a package. A name that is normal already is not copied.
fn key_of(alloc: Global, ecosystem: &str, name: Text) -> Result<PackageKey, Memory>
    ensures { IfOk result (λ k. k ≡ key ecosystem.now name) }
{
    if base_of(ecosystem) == "PyPI" {
        return PackageKey::normal(alloc, ecosystem, name.as_str());
    }
    Ok(PackageKey {
        ecosystem: Text::copy_of(alloc, ecosystem)?,
        name,
    })
}

fn purl_from(alloc: Global, text: &[u8]) -> Result<Purl, Stop<NotAPurl>>
    ensures { Gives (λ p. p) result (purl_of text.now) }
{
    let Some(parts) = parts_of(text) else {
        return Err(Stop::Refused(NotAPurl));
    };
    let Some(kind) = kind_of(parts.kind) else {
        return Err(Stop::Refused(NotAPurl));
    };
    let namespace = namespace_of(alloc, parts.namespace)?;
    let Some(ecosystem) = ecosystem_of(kind, namespace.as_slice()) else {
        return Err(Stop::Refused(NotAPurl));
    };
    let name = decoded(alloc, parts.name)?;
    let version = version_of(alloc, parts.version)?;
    let name = name_of(alloc, kind, namespace.as_slice(), name)?;
    Ok(Purl {
        key: key_of(alloc, ecosystem, name)?,
        version,
    })
}

impl Purl {
    /// The package and version that a package URL names, as `pkg:npm/lodash@4.17.0` (package-url specification, "purl").
    /// Qualifiers and subpath are passed over.
    pub fn read(alloc: Global, text: &str) -> Result<Purl, PurlFault>
        ensures ok { IfOk result (λ purl. purl_of text.now ≡ Ok purl) }
        ensures bad { result ≡ Err PurlFault.BadPurl → purl_of text.now ≡ Err refused }
    {
        match purl_from(alloc, text.as_bytes()) {
            Ok(purl) => Ok(purl),
            Err(Stop::Memory) => Err(PurlFault::Memory),
            Err(Stop::Refused(_)) => Err(PurlFault::BadPurl),
        }
    }
}
