ghost use Rattle.std.specs.Prelude.{◌≡◌};

/// What of a query has the wrong JSON type.
#[derive(Clone, Copy, Debug, PartialEq, Eq)]
pub enum Member {
    /// `commit` is no text.
    Commit,
    /// `package` is no object.
    Package,
    /// `version` is no text.
    Version,
    /// `page_token` is no text.
    PageToken,
    /// `name` of the package is no text.
    Name,
    /// `ecosystem` of the package is no text.
    Ecosystem,
    /// `purl` of the package is no text.
    Purl,
}

/// Why bytes are not read as a query, or as a batch of queries. The tests are made in this order, and
/// the first that fails is the answer; those of a batch as a whole come before those of its queries.
#[derive(Clone, Copy, Debug, PartialEq, Eq)]
pub enum QueryFault {
    /// The bytes are not one JSON text in UTF-8, nest deeper than 127, or have a number that no 64-bit
    /// float can hold.
    NotJson,
    /// They are no object.
    NotObject,
    /// A member that is there has the wrong type.
    WrongType(Member),
    /// `commit` is not 40 hex digits.
    BadCommit,
    /// `purl` is no package URL that names a package of an ecosystem here.
    BadPurl,
    /// `package` is there and has neither `purl` nor both `name` and `ecosystem`; or it has `purl` with
    /// one of these; or a version stands in `purl` and in `version`.
    BadPackage,
    /// Neither `commit` nor `package` is there.
    NoSubject,
    /// `commit` is there with a version.
    CommitWithVersion,
    /// `page_token` is no page token.
    BadToken,
    /// A batch has no list `queries`.
    NoQueries,
    /// A batch has more than 1,000 queries.
    TooManyQueries,
    /// Want of memory.
    Memory,
}

impl QueryFault {
    ghost use Rattle.query_json.specs.Faults.{code_of, name_of};

    /// The number under which it is printed.
    pub fn code(&self) -> u8
        ensures { result ≡ code_of self.now }
    {
        match self {
            QueryFault::NotJson => 1,
            QueryFault::NotObject => 2,
            QueryFault::WrongType(_) => 3,
            QueryFault::BadCommit => 4,
            QueryFault::BadPurl => 5,
            QueryFault::BadPackage => 6,
            QueryFault::NoSubject => 7,
            QueryFault::CommitWithVersion => 8,
            QueryFault::BadToken => 9,
            QueryFault::NoQueries => 10,
            QueryFault::TooManyQueries => 11,
            QueryFault::Memory => 12,
        }
    }

    /// The name under which it is printed.
    pub fn name(&self) -> &'static str
        ensures { result.now ≡ name_of self.now }
    {
        match self {
            QueryFault::NotJson => "NotJson",
            QueryFault::NotObject => "NotObject",
            QueryFault::WrongType(member) => wrong_type_name(*member),
            QueryFault::BadCommit => "BadCommit",
            QueryFault::BadPurl => "BadPurl",
            QueryFault::BadPackage => "BadPackage",
            QueryFault::NoSubject => "NoSubject",
            QueryFault::CommitWithVersion => "CommitWithVersion",
            QueryFault::BadToken => "BadToken",
            QueryFault::NoQueries => "NoQueries",
            QueryFault::TooManyQueries => "TooManyQueries",
            QueryFault::Memory => "Memory",
        }
    }
}

ghost use Rattle.query_json.specs.Faults.{wrong_type_name};

fn wrong_type_name(member: Member) -> &'static str
    ensures { result.now ≡ wrong_type_name member }
{
    match member {
        Member::Commit => "WrongType(Commit)",
        Member::Package => "WrongType(Package)",
        Member::Version => "WrongType(Version)",
        Member::PageToken => "WrongType(PageToken)",
        Member::Name => "WrongType(Name)",
        Member::Ecosystem => "WrongType(Ecosystem)",
        Member::Purl => "WrongType(Purl)",
    }
}

/// Why bytes are not read as a batch of queries.
#[derive(Clone, Copy, Debug, PartialEq, Eq)]
pub struct BatchFault {
    /// The index of the query that is refused, from 0, or none where the batch as a whole is.
    pub index: Option<u32>,
    /// Why it is refused.
    pub fault: QueryFault,
}
