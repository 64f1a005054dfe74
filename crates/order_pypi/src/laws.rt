//! What the definitions of versions say together.

ghost use Rattle.std.specs.Prelude.{◌≡◌, true};
ghost use Rattle.order_pypi.specs.Key.{Parts};
ghost use Rattle.order_pypi.specs.Reading.{is_version, parts};
ghost use Rattle.order_pypi.specs.Spelling.{AreNormal, spelling};

/// The normal spelling of a version's parts is a version and reads back to these parts, whichever of them
/// there are (PEP 440, "Normalization").
pub fn a_normal_spelling_reads_back()
    ensures version { (p : Parts) → AreNormal p → is_version (spelling p) ≡ true }
    ensures parts { (p : Parts) → AreNormal p → parts (spelling p) ≡ p }
{}
