ghost use Rattle.std.specs.Prelude.{◌≡◌, IfOk, IfSome, option_map};
ghost use Rattle.clap.specs.Words.{found_of, rows_of};
ghost use Rattle.osv_prim.specs.declared.subject.Subject.TheVariants.{Package};
ghost use Rattle.command_line.specs.Commands.{address_of, commit_asked, is_bare, listed, package_asked, package_of, subject_of, IsInRange, drill_asked};

use crate::command::{Command, MAX_DRILL, MIN_DRILL};
use crate::matched::{operands, text_of};
use crate::number::MAX_DIGITS;
use clap::ArgMatches;
use osv_prim::{Memory, Oid, PackageKey, Subject, Text, read_u64_in};
use std::alloc::Global;

/// What `ask` asks for, or none where the words are outside the grammar.
pub fn subject_of(alloc: Global, matches: &ArgMatches<'_>) -> Result<Option<Subject>, Memory>
    ensures { IfOk result (λ s. s ≡ subject_of (rows_of (found_of matches.now))) }
{
    match text_of(matches, "commit") {
        None => package_asked(alloc, operands(matches)),
        Some(text) => match Oid::read(text.as_bytes()) {
            Ok(oid) => commit_asked(alloc, oid, operands(matches)),
            Err(_) => Ok(None),
        },
    }
}

fn commit_asked(
    alloc: Global,
    oid: Oid,
    operands: Option<&[&str]>,
) -> Result<Option<Subject>, Memory>
    ensures { IfOk result (λ s. s ≡ commit_asked oid (listed operands.entry)) }
{
    match operands {
        None | Some([]) => Ok(Some(Subject::Commit(oid))),
        Some([ecosystem, name]) => match package_of(alloc, ecosystem, name)? {
            Some(package) => Ok(Some(Subject::CommitIn(oid, package))),
            None => Ok(None),
        },
        _ => Ok(None),
    }
}

fn package_asked(alloc: Global, operands: Option<&[&str]>) -> Result<Option<Subject>, Memory>
    ensures { IfOk result (λ s. s ≡ package_asked (listed operands.entry)) }
{
    match operands {
        Some([ecosystem, name]) => Ok(as_subject(package_of(alloc, ecosystem, name)?, None)),
        Some([ecosystem, name, version]) => {
            let version = Text::copy_of(alloc, version)?;
            let package = package_of(alloc, ecosystem, name)?;
            Ok(as_subject(package, Some(version)))
        }
        _ => Ok(None),
    }
}

fn as_subject(key: Option<PackageKey>, version: Option<Text>) -> Option<Subject>
    ensures { result ≡ option_map (λ p. Package p version) key }
{
    Some(Subject::Package(key?, version))
}

// None where one of the two is empty.
fn package_of(alloc: Global, ecosystem: &str, name: &str) -> Result<Option<PackageKey>, Memory>
    ensures { IfOk result (λ p. p ≡ package_of ecosystem.now name.now) }
{
    if ecosystem.is_empty() || name.is_empty() {
        return Ok(None);
    }
    Ok(Some(PackageKey::normal(alloc, ecosystem, name)?))
}

/// Whether there is none.
pub fn is_bare(operands: Option<&[&str]>) -> bool
    ensures { result ≡ is_bare (listed operands.entry) }
{
    matches!(operands, None | Some([]))
}

/// The address, or none where the words are not one that is not empty.
pub fn address_of(alloc: Global, operands: Option<&[&str]>) -> Result<Option<Text>, Memory>
    ensures { IfOk result (λ a. a ≡ address_of (listed operands.entry)) }
{
    match operands {
        Some([address]) if !address.is_empty() => Ok(Some(Text::copy_of(alloc, address)?)),
        _ => Ok(None),
    }
}

/// The drill of a seed and a size, or none where the words are not two numbers in their ranges.
pub fn drill_asked(operands: Option<&[&str]>) -> Option<Command>
    ensures value { result ≡ drill_asked (listed operands.entry) }
    ensures range { IfSome result IsInRange }
{
    let Some([seed, size]) = operands else {
        return None;
    };
    let seed = read_u64_in(seed.as_bytes(), MAX_DIGITS, 0, u64::MAX)?;
    let size = read_u64_in(size.as_bytes(), MAX_DIGITS, MIN_DRILL, MAX_DRILL)?;
    Some(Command::Drill {
        seed,
        size: size as u32,
    })
}
