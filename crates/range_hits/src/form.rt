ghost use Rattle.std.specs.Prelude.{◌≡◌, ℕ, List, IfOk};
ghost use Rattle.osv_record.specs.Advisories.{Extent};
ghost use Rattle.evaluate.specs.Hits.{range_contains};
ghost use Rattle.osv_prim.specs.declared.bound.Bound.{Bound};
ghost use Rattle.osv_prim.specs.declared.event.EventKind.{EventKind};
ghost use Rattle.range_eval.specs.Compiled.{StandsFor};
ghost use Rattle.range_hits.specs.Forms.{IsFormOf, IsReadOf, is_key_in};

use crate::asked::AskedVersion;
use crate::bounds::compiled;
use order_debian::DebianKey;
use order_pypi::PypiKey;
use order_semver::SemverKey;
use osv_prim::Memory;
use osv_record::Range;
use range_eval::Compiled;
use std::alloc::Global;
use version_order::Order;

/// A range, made once for many versions.
#[derive(Debug, Drop)]
pub enum CompiledRange {
    /// A range of semantic versions.
    SemVer(Box<Compiled<SemverKey>>),
    /// A range of Python's versions.
    Pypi(Box<Compiled<PypiKey>>),
    /// A range of Debian's versions.
    Debian(Box<Compiled<DebianKey>>),
    /// A range that contains no version: it has no order, or a value that can't be read.
    Nothing,
}

impl CompiledRange {
    /// The form of a range of an ecosystem's package. Each value is read once. Only memory can fail.
    pub fn of(alloc: Global, ecosystem: &str, range: &Range) -> Result<CompiledRange, Memory>
        ensures { IfOk result (λ form. IsFormOf ecosystem.now range.now form) }
    {
        let events = range.events.as_slice();
        match Order::of(range.kind, ecosystem) {
            None => Ok(CompiledRange::Nothing),
            Some(Order::SemVer) => match compiled(alloc, events)? {
                Some(form) => Ok(CompiledRange::SemVer(Box::new(alloc, form)?)),
                None => Ok(CompiledRange::Nothing),
            },
            Some(Order::Pypi) => match compiled(alloc, events)? {
                Some(form) => Ok(CompiledRange::Pypi(Box::new(alloc, form)?)),
                None => Ok(CompiledRange::Nothing),
            },
            Some(Order::Debian) => match compiled(alloc, events)? {
                Some(form) => Ok(CompiledRange::Debian(Box::new(alloc, form)?)),
                None => Ok(CompiledRange::Nothing),
            },
        }
    }

    /// Whether the range contains a version (OSV schema 1.6, "Evaluation"), by O(log n) comparisons and
    /// without memory.
    pub fn contains(&self, keys: &AskedVersion) -> bool
        ensures { (ecosystem text : List ℕ) (extent : Extent) → IsFormOf ecosystem extent self.now → IsReadOf keys.now text → result ≡ range_contains ecosystem text extent }
    {
        match self {
            CompiledRange::SemVer(form) => is_in(form, &keys.semver),
            CompiledRange::Pypi(form) => is_in(form, &keys.pypi),
            CompiledRange::Debian(form) => is_in(form, &keys.debian),
            CompiledRange::Nothing => false,
        }
    }
}

// Whether a version that could be read is in a range.
fn is_in<K: Ord + Drop>(form: &Compiled<K>, key: &Option<K>) -> bool
    ensures { (bounds : List (EventKind × Bound K)) → StandsFor K.cmp form.now bounds → result ≡ is_key_in K.cmp bounds key.now }
{
    match key {
        Some(key) => form.contains(key),
        None => false,
    }
}
