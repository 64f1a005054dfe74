ghost use Rattle.std.specs.Prelude.{◌≡◌, refl, IfOk, Err, None, Some};
ghost use Rattle.std.specs.Cmp.{eq_by_cmp_equiv, partial_equiv_from_equiv, partial_order_from_total};
ghost use Rattle.std.specs.Ordering.{as_partial_cmp};
ghost use Rattle.version_order.specs.Laws.{version_total};
ghost use Rattle.version_order.specs.Versions.{rank, reading, version_cmp, version_eq, version_order};

use crate::order::Order;
use order_debian::DebianKey;
use order_pypi::PypiKey;
use order_semver::SemverKey;
use osv_prim::ReadVersion;
use std::alloc::Global;
use std::cmp::Ordering;

/// A version of one of the orders. Comparisons take no memory.
#[derive(Debug, Drop)]
pub enum Version {
    /// A semantic version (SemVer 2.0.0).
    SemVer(SemverKey),
    /// A version of Python's (PEP 440).
    Pypi(PypiKey),
    /// A version of Debian's (Debian Policy, 5.6.12).
    Debian(DebianKey),
}

impl Version {
    /// The version that a text spells in an order. It takes a small number of allocations, of the text's
    /// length together. `NotAVersion` where the order has no reading of the text.
    pub fn read(alloc: Global, order: Order, text: &str) -> Result<Version, ReadVersion>
        ensures version { IfOk result (λ v. reading order text.now ≡ Some v) }
        ensures refused { result ≡ Err ReadVersion.NotAVersion → reading order text.now ≡ None }
    {
        match order {
            Order::SemVer => Ok(Version::SemVer(order_semver::read(alloc, text)?)),
            Order::Pypi => Ok(Version::Pypi(order_pypi::read(alloc, text)?)),
            Order::Debian => Ok(Version::Debian(order_debian::read(alloc, text)?)),
        }
    }

    /// The order that it is a version of.
    pub fn order(&self) -> Order
        ensures { result ≡ version_order self.now }
    {
        match self {
            Version::SemVer(_) => Order::SemVer,
            Version::Pypi(_) => Order::Pypi,
            Version::Debian(_) => Order::Debian,
        }
    }

    /// Compares two versions of one order, as it says.
    pub fn cmp_same(&self, other: &Version) -> Ordering
        requires { version_order self.now ≡ version_order other.now }
        ensures { result ≡ version_cmp self.now other.now }
    {
        self.cmp(other)
    }
}

fn rank(order: Order) -> u8
    ensures { result ≡ rank order }
{
    match order {
        Order::SemVer => 0,
        Order::Pypi => 1,
        Order::Debian => 2,
    }
}

impl PartialEq for Version {
    ghost eq = { version_eq };

    ghost laws = { partial_equiv_from_equiv (eq_by_cmp_equiv version_total) };

    fn eq(&self, other: &Version) -> bool {
        self.cmp(other).is_eq()
    }
}

impl Eq for Version {
    ghost laws = { eq_by_cmp_equiv version_total };
}

impl PartialOrd for Version {
    ghost partial_cmp = { as_partial_cmp version_cmp };

    ghost laws = { partial_order_from_total version_total };

    fn partial_cmp(&self, other: &Version) -> Option<Ordering> {
        Some(self.cmp(other))
    }
}

/// By the order that they have, and of one order as it says.
impl Ord for Version {
    ghost cmp = { version_cmp };

    ghost total = { version_total };

    ghost matches_partial_cmp = { λ x y. refl };

    ghost matches_eq = { λ x y. refl };

    fn cmp(&self, other: &Version) -> Ordering {
        match (self, other) {
            (Version::SemVer(a), Version::SemVer(b)) => a.cmp(b),
            (Version::Pypi(a), Version::Pypi(b)) => a.cmp(b),
            (Version::Debian(a), Version::Debian(b)) => a.cmp(b),
            _ => rank(self.order()).cmp(&rank(other.order())),
        }
    }
}
