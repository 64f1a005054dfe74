ghost use Rattle.std.specs.Prelude.{◌≡◌, ℕ, List, ◌&&◌, ◌||◌, ◌==◌, length, IfOk, OnOk};
ghost use Rattle.std.specs.Str.{bytes_eq};
ghost use Rattle.osv_prim.specs.Packages.{matches};
ghost use Rattle.package_index.specs.Listing.{has_package, lists};
ghost use Rattle.package_index.specs.Noted.{IsSound, noted};

use crate::numbers::Texts;
use osv_prim::{Memory, PackageKey, Text, base_of};
use osv_record::{Affected, Record};
use std::alloc::Global;

/// What of advisories is noted so far: the texts that have numbers, and under the numbers of a name and an
/// ecosystem the indexes of advisories.
#[derive(Drop)]
pub(crate) struct Growing {
    pub(crate) names: Texts,
    pub(crate) ecosystems: Texts,
    pub(crate) entries: Vec<((u32, u32), u32)>,
}

/// Notes the packages of an advisory with this index. An entry is noted under its whole ecosystem and under
/// its base, so that each is found in one look-up.
pub(crate) fn add_record(
    alloc: Global,
    growing: &mut Growing,
    advisory: &Record,
    index: u32,
) -> Result<(), Memory>
    requires { IsSound growing.old }
    ensures sound { OnOk result (IsSound growing.new) }
    ensures noted { OnOk result ((e t : List ℕ) (i : ℕ) → noted growing.new e t i ≡ (noted growing.old e t i || (lists (record { ecosystem = e; name = t }) advisory.now && (index == i)))) }
{
    for entry in advisory.affected.as_slice() {
        add_entry(alloc, growing, entry, index)?;
    }
    Ok(())
}

fn add_entry(
    alloc: Global,
    growing: &mut Growing,
    entry: &Affected,
    index: u32,
) -> Result<(), Memory>
    requires { IsSound growing.old }
    ensures sound { OnOk result (IsSound growing.new) }
    ensures noted { OnOk result ((e t : List ℕ) (i : ℕ) → noted growing.new e t i ≡ (noted growing.old e t i || (has_package (record { ecosystem = e; name = t }) entry.now.«package» && (index == i)))) }
{
    match &entry.package {
        Some(key) => add_package(alloc, growing, key, index),
        None => Ok(()),
    }
}

fn add_package(
    alloc: Global,
    growing: &mut Growing,
    key: &PackageKey,
    index: u32,
) -> Result<(), Memory>
    requires { IsSound growing.old }
    ensures sound { OnOk result (IsSound growing.new) }
    ensures noted { OnOk result ((e t : List ℕ) (i : ℕ) → noted growing.new e t i ≡ (noted growing.old e t i || (matches key.now (record { ecosystem = e; name = t }) && (index == i)))) }
{
    add(alloc, growing, &key.ecosystem, &key.name, index)?;
    let base = base_of(key.ecosystem.as_str());
    if base.len() < key.ecosystem.len() {
        let base = Text::copy_of(alloc, base)?;
        add(alloc, growing, &base, &key.name, index)?;
    }
    Ok(())
}

// Notes an advisory under an ecosystem and a name.
fn add(
    alloc: Global,
    growing: &mut Growing,
    ecosystem: &Text,
    name: &Text,
    index: u32,
) -> Result<(), Memory>
    requires { IsSound growing.old }
    ensures sound { OnOk result (IsSound growing.new) }
    ensures noted { OnOk result ((e t : List ℕ) (i : ℕ) → noted growing.new e t i ≡ (noted growing.old e t i || (bytes_eq name.now t && bytes_eq e ecosystem.now && (index == i)))) }
{
    let name = growing.names.number_or_add(alloc, name)?;
    let ecosystem = growing.ecosystems.number_or_add(alloc, ecosystem)?;
    growing.entries.push(((name, ecosystem), index))?;
    Ok(())
}
