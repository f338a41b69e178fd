// Refusals: what a call says, and which family a refusal number belongs to.
#![tactic(auto)]

ghost use Rattle.std.specs.Prelude.{◌≡◌};
ghost use Rattle.verdict.specs.Families.{family_of};
ghost use Rattle.verdict.specs.Numbers.{number};

// Why a call refuses. Spent, 32, is no reason: it is one of the ways in which a search ends.
#[derive(Clone, Copy, PartialEq, Eq)]
pub enum Reason {
    NothingWanted,
    TooManyKinds,
    UnevenColumns,
    OutOfRange,
    WrongCounts,
    WrongRuns,
    WrongEntry,
    NamedTwice,
    WrongBox,
    WrongKit,
    NoGroup,
    TooWide,
    NoRoom,
    NoLine,
    NotInForm,
    BytesLeft,
    TooShort,
    TooLong,
}

impl Reason {
    // Its number.
    pub fn code(self) -> u8
        ensures { result ≡ number self }
    {
        match self {
            Reason::NothingWanted => 1,
            Reason::TooManyKinds => 2,
            Reason::UnevenColumns => 11,
            Reason::OutOfRange => 12,
            Reason::WrongCounts => 21,
            Reason::WrongRuns => 22,
            Reason::WrongEntry => 23,
            Reason::NamedTwice => 24,
            Reason::WrongBox => 25,
            Reason::WrongKit => 26,
            Reason::NoGroup => 31,
            Reason::TooWide => 33,
            Reason::NoRoom => 41,
            Reason::NoLine => 51,
            Reason::NotInForm => 52,
            Reason::BytesLeft => 53,
            Reason::TooShort => 54,
            Reason::TooLong => 55,
        }
    }
}

// What a call refuses, and where.
#[derive(Clone, Copy, PartialEq, Eq)]
pub struct Refusal {
    pub reason: Reason,
    pub at: usize,
}

// Where a refusal comes from; `NoRefusal` is for the numbers that report none.
#[derive(Clone, Copy, PartialEq, Eq)]
pub enum From {
    Query,
    Table,
    Tree,
    Search,
    Room,
    Sheet,
    NoRefusal,
}

// The family of a refusal number.
#[tactic(auto, unfolding(crate::specs::Families::family_in))]
pub fn family(code: u8) -> From
    ensures { result ≡ family_of code }
{
    match code {
        1..=2 => From::Query,
        11..=12 => From::Table,
        21..=26 => From::Tree,
        31..=33 => From::Search,
        41 => From::Room,
        51..=53 => From::Sheet,
        54..=55 => From::Room,
        _ => From::NoRefusal,
    }
}
