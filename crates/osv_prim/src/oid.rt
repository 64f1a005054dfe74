ghost use Rattle.std.specs.Prelude.{◌≡◌, ◌↔◌, length, IfOk, IsOk, Some, [], ◌∷◌, refl, nat_eq};
ghost use Rattle.std.specs.Result.{result_ok};
ghost use Rattle.std.specs.List.{AllPass};
ghost use Rattle.std.specs.Ordering.{nat_cmp};
ghost use Rattle.std.specs.Cmp.{partial_equiv_from_equiv};
ghost use Rattle.std.specs.Cmp.Lexicographic.{slice_cmp, pointwise, nat_list_cmp_total, nat_list_eq_equiv, texts_ties, texts_po};
ghost use Rattle.hex.specs.Hex.{is_hex_digit};
ghost use Rattle.std.proofs.Common.{rules};
ghost use Rattle.std.specs.Cmp.Rules.{hashing};
ghost use Rattle.osv_prim.specs.Oids.{oid_of, text_of};

use crate::list::List;
use crate::memory::Memory;
use std::alloc::Global;
use std::cmp::Ordering;
use std::hash::{Hash, Hasher};
use std::marker::Model;

/// The text is not 40 hex digits.
#[derive(Clone, Copy, Debug, PartialEq, Eq)]
pub struct NotAnId;

/// The id of a git object, 20 bytes (git's documentation, "gitglossary": object name). Contracts see it as
/// the list of its bytes. Ids are ordered by their bytes.
#[derive(Clone, Copy, Debug)]
pub struct Oid {
    bytes: [u8; 20],
}

impl Model for Oid {
    ghost use Rattle.std.specs.Prelude.{List, ℕ};

    ghost Value = { List ℕ };

    ghost view = { λ o. o.bytes };

    ghost inverse = { λ v. record { bytes = v } };
}

impl Oid {
    /// The id that a text of 40 hex digits names, in either case. `NotAnId` for each other text.
    pub fn read(text: &[u8]) -> Result<Oid, NotAnId>
        ensures value { result_ok result ≡ oid_of text.now }
        ensures digits { IsOk result ↔ ((length text.now ≡ 40) × AllPass is_hex_digit text.now) }
    {
        let mut bytes = [0u8; 20];
        match hex::decode_to_slice(text, &mut bytes) {
            Ok(()) => Ok(Oid { bytes }),
            Err(_) => Err(NotAnId),
        }
    }

    /// The 40 hex digits of the id, with small letters.
    pub fn write(&self) -> [u8; 40]
        ensures { result ≡ text_of self.now }
    {
        let mut text = [0u8; 40];
        let _ = hex::encode_to_slice(self.bytes.as_slice(), &mut text);
        text
    }
}

impl PartialEq for Oid {
    ghost eq = { pointwise nat_eq };

    ghost laws = { partial_equiv_from_equiv nat_list_eq_equiv };

    fn eq(&self, other: &Oid) -> bool {
        self.bytes.as_slice() == other.bytes.as_slice()
    }
}

impl Eq for Oid {
    ghost laws = { nat_list_eq_equiv };
}

impl PartialOrd for Oid {
    ghost partial_cmp = { λ x y. Some (slice_cmp nat_cmp x y) };

    ghost laws = { texts_po };

    fn partial_cmp(&self, other: &Oid) -> Option<Ordering> {
        Some(self.cmp(other))
    }
}

impl Ord for Oid {
    ghost cmp = { slice_cmp nat_cmp };

    ghost total = { nat_list_cmp_total };

    ghost matches_partial_cmp = { λ x y. refl };

    ghost matches_eq = { texts_ties };

    fn cmp(&self, other: &Oid) -> Ordering {
        self.bytes.as_slice().cmp(other.bytes.as_slice())
    }
}

impl Hash for Oid {
    ghost hash_input = { λ o. o ∷ [] };

    ghost respects_eq = { Prim.search (hashing, rules) };

    fn hash<H: Hasher>(&self, state: &mut H) {
        state.write(self.bytes.as_slice());
    }
}

/// A row of a graph: a commit and its parents (git's documentation, "gitglossary": commit, parent).
#[derive(Debug, Drop)]
pub struct CommitRow {
    /// The commit's id.
    pub oid: Oid,
    /// The ids of its parents, in the order in which the commit names them. A root has none.
    pub parents: List<Oid>,
}

impl CommitRow {
    /// A copy of the row. Only memory can fail.
    pub fn copy(&self, alloc: Global) -> Result<CommitRow, Memory>
        ensures { IfOk result (λ r. r ≡ self.now) }
    {
        let parents = Vec::from_slice(alloc, self.parents.as_slice())?;
        Ok(CommitRow {
            oid: self.oid,
            parents: List::from_vec(parents),
        })
    }
}
