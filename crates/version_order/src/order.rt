ghost use Rattle.std.specs.Prelude.{◌≡◌};
ghost use Rattle.version_order.specs.Orders.{ecosystem_order, order_of};

use osv_prim::{RangeKind, base_of};

/// How versions are ordered.
#[derive(Clone, Copy, Debug, PartialEq, Eq)]
pub enum Order {
    /// Semantic versions (SemVer 2.0.0).
    SemVer,
    /// Python's versions (PEP 440).
    Pypi,
    /// Debian's versions (Debian Policy, 5.6.12).
    Debian,
}

impl Order {
    /// The order of the versions of a range, if it has one. A range of semantic versions has it in any
    /// ecosystem, also in the empty one. A range in the order of its ecosystem has it where the text before
    /// the first `:` is `PyPI`, `Debian`, `Ubuntu`, `npm`, `crates.io` or `Go`. Commits have none.
    pub fn of(kind: RangeKind, ecosystem: &str) -> Option<Order>
        ensures { result ≡ order_of kind ecosystem.now }
    {
        match kind {
            RangeKind::SemVer => Some(Order::SemVer),
            RangeKind::Ecosystem => ecosystem_order(base_of(ecosystem)),
            RangeKind::Git => None,
        }
    }
}

fn ecosystem_order(base: &str) -> Option<Order>
    ensures { result ≡ ecosystem_order base.now }
{
    match base {
        "PyPI" => Some(Order::Pypi),
        "Debian" | "Ubuntu" => Some(Order::Debian),
        "npm" | "crates.io" | "Go" => Some(Order::SemVer),
        _ => None,
    }
}
