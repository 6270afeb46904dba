ghost use Rattle.std.specs.Prelude.{◌≡◌, IfOk, Some, None};
ghost use Rattle.qf_base.specs.Refusal.{kind_name, refusal_bytes};

use crate::{List, NoMemory};
use std::alloc::Global;
use std::fmt;

/// What a refusal is of. Each name stands in the refusal's line as it stands here.
#[derive(Clone, Copy, PartialEq, Eq)]
pub enum Kind {
    TooLong,
    NoHeader,
    TooManyColumns,
    BadName,
    RepeatedName,
    TooManyRows,
    Uneven,
    BadNumber,
    BadText,
    BadByte,
    OpenString,
    NumberTooBig,
    BadSyntax,
    NotLinear,
    BigCoefficient,
    OtherTable,
    UnknownColumn,
    WrongType,
    RepeatedColumn,
    MissingColumn,
    TooMany,
    UnevenDomain,
    BadDomain,
    UnknownParam,
    RepeatedParam,
    Empty,
    TooLarge,
    MissesOld,
    Wide,
    BadJson,
    BadComplaint,
    TooManyComplaints,
    UnknownRow,
    RepeatedRow,
    ComplaintColumn,
    ComplaintType,
    TooManyFree,
    TooManyPoints,
}

/// Why an input is refused, with up to two places: a file's number, a byte's offset from 0, or the number of a
/// statement, record, column, parameter or complaint, which count from 1. A second place has a first one before it.
#[derive(Clone, Copy, PartialEq, Eq)]
pub struct Refusal {
    pub kind: Kind,
    pub first: Option<u64>,
    pub second: Option<u64>,
}

impl Refusal {
    /// A refusal that names no place.
    pub fn plain(kind: Kind) -> Refusal
        ensures { result ≡ record { kind = kind; first = None; second = None } }
    {
        Refusal {
            kind,
            first: None,
            second: None,
        }
    }

    /// A refusal of one place.
    pub fn at(kind: Kind, place: u64) -> Refusal
        ensures { result ≡ record { kind = kind; first = Some place; second = None } }
    {
        Refusal {
            kind,
            first: Some(place),
            second: None,
        }
    }

    /// A refusal of two places, as a record and a column.
    pub fn at_both(kind: Kind, first: u64, second: u64) -> Refusal
        ensures { result ≡ record { kind = kind; first = Some first; second = Some second } }
    {
        Refusal {
            kind,
            first: Some(first),
            second: Some(second),
        }
    }
}

impl Kind {
    /// The word that stands for the kind in a refusal's line.
    pub fn name(&self) -> &'static str
        ensures { result.now ≡ kind_name self.now }
    {
        match self {
            Kind::TooLong => "TooLong",
            Kind::NoHeader => "NoHeader",
            Kind::TooManyColumns => "TooManyColumns",
            Kind::BadName => "BadName",
            Kind::RepeatedName => "RepeatedName",
            Kind::TooManyRows => "TooManyRows",
            Kind::Uneven => "Uneven",
            Kind::BadNumber => "BadNumber",
            Kind::BadText => "BadText",
            Kind::BadByte => "BadByte",
            Kind::OpenString => "OpenString",
            Kind::NumberTooBig => "NumberTooBig",
            Kind::BadSyntax => "BadSyntax",
            Kind::NotLinear => "NotLinear",
            Kind::BigCoefficient => "BigCoefficient",
            Kind::OtherTable => "OtherTable",
            Kind::UnknownColumn => "UnknownColumn",
            Kind::WrongType => "WrongType",
            Kind::RepeatedColumn => "RepeatedColumn",
            Kind::MissingColumn => "MissingColumn",
            Kind::TooMany => "TooMany",
            Kind::UnevenDomain => "UnevenDomain",
            Kind::BadDomain => "BadDomain",
            Kind::UnknownParam => "UnknownParam",
            Kind::RepeatedParam => "RepeatedParam",
            Kind::Empty => "Empty",
            Kind::TooLarge => "TooLarge",
            Kind::MissesOld => "MissesOld",
            Kind::Wide => "Wide",
            Kind::BadJson => "BadJson",
            Kind::BadComplaint => "BadComplaint",
            Kind::TooManyComplaints => "TooManyComplaints",
            Kind::UnknownRow => "UnknownRow",
            Kind::RepeatedRow => "RepeatedRow",
            Kind::ComplaintColumn => "ComplaintColumn",
            Kind::ComplaintType => "ComplaintType",
            Kind::TooManyFree => "TooManyFree",
            Kind::TooManyPoints => "TooManyPoints",
        }
    }
}

/// The line that tells a refusal: `refused: KIND`, a space and a number for each place, and a line feed.
pub fn refusal_line(alloc: Global, refusal: &Refusal) -> Result<List<u8>, NoMemory>
    ensures { IfOk result (λ line. line ≡ refusal_bytes refusal.now) }
{
    let name = refusal.kind.name();
    let line = match (refusal.first, refusal.second) {
        (None, None) => format!(in alloc; "refused: {name}\n")?,
        (Some(first), None) => format!(in alloc; "refused: {name} {first}\n")?,
        (None, Some(second)) => format!(in alloc; "refused: {name} {second}\n")?,
        (Some(first), Some(second)) => format!(in alloc; "refused: {name} {first} {second}\n")?,
    };
    Ok(List::from_vec(line.into_bytes()))
}
