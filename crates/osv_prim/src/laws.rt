//! What the definitions of keys say together.

ghost use Rattle.std.specs.Prelude.{◌≡◌, List, ℕ};
ghost use Rattle.osv_prim.specs.Packages.{normal_name};

/// The normal name of a normal name is itself (PEP 503, "Normalized Names"), so that a key may be made
/// of a key's own name.
pub fn a_normal_name_stays()
    ensures { (ecosystem name : List ℕ) → normal_name ecosystem (normal_name ecosystem name) ≡ normal_name ecosystem name }
{}
