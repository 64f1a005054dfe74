ghost use Rattle.std.specs.Prelude.{◌≡◌};

/// What is noted of an entry of an advisory, or of one of its ranges.
#[derive(Clone, Copy, Debug, PartialEq, Eq)]
pub enum NoticeKind {
    /// The range has a fixed and a last affected event.
    FixedAndLast,
    /// The range is in the order of its ecosystem, which has none here, or its entry has no package.
    NoOrder,
    /// A value of the range can't be read: in its order, or in a GIT range as a commit's id.
    UnreadEvent,
    /// The entry has no package.
    NoPackage,
    /// The entry has no ranges and no versions.
    NothingListed,
}

/// Something that the author of an advisory should know.
#[derive(Clone, Copy, Debug, PartialEq, Eq)]
pub struct Notice {
    /// What is noted.
    pub kind: NoticeKind,
    /// The entry's index in `affected`, from 0.
    pub entry: u32,
    /// The range's index in the entry, from 0, where it is of a range.
    pub range: Option<u32>,
}

impl NoticeKind {
    ghost use Rattle.record_check.specs.Notices.{notice_code, notice_name};

    /// The number under which it is printed.
    pub fn code(&self) -> u8
        ensures { result ≡ notice_code self.now }
    {
        match self {
            NoticeKind::FixedAndLast => 1,
            NoticeKind::NoOrder => 2,
            NoticeKind::UnreadEvent => 3,
            NoticeKind::NoPackage => 4,
            NoticeKind::NothingListed => 5,
        }
    }

    /// The name under which it is printed.
    pub fn name(&self) -> &'static str
        ensures { result.now ≡ notice_name self.now }
    {
        match self {
            NoticeKind::FixedAndLast => "FixedAndLast",
            NoticeKind::NoOrder => "NoOrder",
            NoticeKind::UnreadEvent => "UnreadEvent",
            NoticeKind::NoPackage => "NoPackage",
            NoticeKind::NothingListed => "NothingListed",
        }
    }
}
