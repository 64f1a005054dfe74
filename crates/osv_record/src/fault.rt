ghost use Rattle.std.specs.Prelude.{◌≡◌};

/// What of an advisory has the wrong JSON type.
#[derive(Clone, Copy, Debug, PartialEq, Eq)]
pub enum Member {
    /// `withdrawn` is no time.
    Withdrawn,
    /// `affected` is no list.
    Affected,
    /// A member of `affected` is no object.
    Entry,
    /// `ranges` is no list.
    Ranges,
    /// A member of `ranges` is no object.
    Range,
    /// `repo` is no text.
    Repo,
    /// `events` is no list.
    Events,
    /// `versions` is no list.
    Versions,
    /// A member of `versions` is no text.
    Version,
}

/// Why bytes are not read as an advisory. The tests are made in the order of the schema's members,
/// and the first that fails is the answer.
#[derive(Clone, Copy, Debug, PartialEq, Eq)]
pub enum RecordFault {
    /// The bytes are more than 16,777,216.
    TooLarge,
    /// They are not one JSON text in UTF-8, nest deeper than 127, or have a number that no 64-bit
    /// float can hold.
    NotJson,
    /// They are no object.
    NotObject,
    /// `id` is absent.
    NoId,
    /// `id` is no text of 1 to 128 letters, digits and `-_.:+`.
    BadId,
    /// `modified` is absent.
    NoModified,
    /// `modified` is no time.
    BadModified,
    /// Something that is there has the wrong type.
    WrongType(Member),
    /// `package` is no object with `ecosystem` and `name`, both texts that are not empty.
    BadPackage,
    /// The `type` of a range is not `SEMVER`, `ECOSYSTEM` or `GIT`.
    BadRangeType,
    /// A GIT range has no `repo`, or an empty one.
    GitWithoutRepo,
    /// The `events` of a range are absent or none.
    NoEvents,
    /// An event is no object with exactly one of `introduced`, `fixed`, `last_affected` and `limit`,
    /// a text that is not empty.
    BadEvent,
    /// No event of a range is `introduced`.
    NoIntroduced,
    /// Want of memory.
    Memory,
}

impl RecordFault {
    ghost use Rattle.osv_record.specs.Faults.{code_of, name_of};

    /// The number under which it is printed.
    pub fn code(&self) -> u8
        ensures { result ≡ code_of self.now }
    {
        match self {
            RecordFault::NotJson => 1,
            RecordFault::NotObject => 2,
            RecordFault::NoId => 3,
            RecordFault::BadId => 4,
            RecordFault::NoModified => 5,
            RecordFault::BadModified => 6,
            RecordFault::WrongType(_) => 7,
            RecordFault::BadRangeType => 8,
            RecordFault::GitWithoutRepo => 9,
            RecordFault::NoEvents => 10,
            RecordFault::BadEvent => 11,
            RecordFault::NoIntroduced => 12,
            RecordFault::BadPackage => 13,
            RecordFault::TooLarge => 14,
            RecordFault::Memory => 15,
        }
    }

    /// The name under which it is printed.
    pub fn name(&self) -> &'static str
        ensures { result.now ≡ name_of self.now }
    {
        match self {
            RecordFault::NotJson => "NotJson",
            RecordFault::NotObject => "NotObject",
            RecordFault::NoId => "NoId",
            RecordFault::BadId => "BadId",
            RecordFault::NoModified => "NoModified",
            RecordFault::BadModified => "BadModified",
            RecordFault::WrongType(member) => wrong_type_name(*member),
            RecordFault::BadRangeType => "BadRangeType",
            RecordFault::GitWithoutRepo => "GitWithoutRepo",
            RecordFault::NoEvents => "NoEvents",
            RecordFault::BadEvent => "BadEvent",
            RecordFault::NoIntroduced => "NoIntroduced",
            RecordFault::BadPackage => "BadPackage",
            RecordFault::TooLarge => "TooLarge",
            RecordFault::Memory => "Memory",
        }
    }
}

ghost use Rattle.osv_record.specs.Faults.{wrong_type_name};

fn wrong_type_name(member: Member) -> &'static str
    ensures { result.now ≡ wrong_type_name member }
{
    match member {
        Member::Withdrawn => "WrongType(Withdrawn)",
        Member::Affected => "WrongType(Affected)",
        Member::Entry => "WrongType(Entry)",
        Member::Ranges => "WrongType(Ranges)",
        Member::Range => "WrongType(Range)",
        Member::Repo => "WrongType(Repo)",
        Member::Events => "WrongType(Events)",
        Member::Versions => "WrongType(Versions)",
        Member::Version => "WrongType(Version)",
    }
}
