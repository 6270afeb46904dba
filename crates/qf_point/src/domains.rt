ghost use Rattle.std.specs.Prelude.{◌≡◌, ◌≢◌, ◌<◌, ◌+◌, ◌^◌, Some, None, length, IfOk, IfErr, OnOk, if◌then◌else◌, int_le, ◌&&◌, IfSome};
ghost use Rattle.qf_point.specs.Points.{In, is_in};
ghost use Rattle.qf_point.specs.Domains as small;
ghost use Rattle.qf_point.specs.Domains.{AreSmall, HasSmallEnds, fault_of, domain_of, first_fault, domains_from, sliced_from, refusal_of};
ghost use Rattle.qf_point.specs.Noted.{noted, places_from, row_at};

use qf_base::{Intervals, Kind, List, NoMemory, PBox, ParamSet, Point, Refusal};
use std::alloc::Global;
use std::marker::Model;

/// A record of the domain of a parameter, which counts from 1: its least and its greatest value.
#[derive(Clone, Copy, PartialEq, Eq)]
pub struct DomainRow {
    pub param: u32,
    pub lo: i64,
    pub hi: i64,
}

/// Why records are no domains: the least value of a parameter is above its greatest, an end leaves -2^50 to 2^50, or the
/// old constant is outside.
#[derive(Clone, Copy, PartialEq, Eq)]
pub enum DomainFault {
    Empty(u32),
    TooLarge(u32),
    MissesOld(u32),
    NoMemory,
}

impl From<NoMemory> for DomainFault {
    ghost use Rattle.qf_point.specs.declared.domains.DomainFault.TheVariants as fault;

    ghost from_gives = { λ _ it. it ≡ fault.NoMemory };

    fn from(_: NoMemory) -> Self {
        DomainFault::NoMemory
    }
}

impl DomainFault {
    /// The refusal that the fault is, which want of memory is not.
    pub fn refusal(&self) -> Option<Refusal>
        ensures { result ≡ refusal_of self.now }
    {
        match self {
            DomainFault::Empty(param) => Some(Refusal::at(Kind::Empty, u64::from(*param))),
            DomainFault::TooLarge(param) => Some(Refusal::at(Kind::TooLarge, u64::from(*param))),
            DomainFault::MissesOld(param) => Some(Refusal::at(Kind::MissesOld, u64::from(*param))),
            DomainFault::NoMemory => None,
        }
    }
}

/// The domain of each parameter, which holds its old constant.
#[derive(Drop)]
pub struct Domains {
    alloc: Global,
    olds: List<i64>,
    region: PBox,
}

impl Model for Domains {
    ghost use Rattle.qf_point.specs.Domains.{DomainBox, AreSmall, HasSmallEnds};
    ghost use Rattle.qf_point.specs.Points.{In};

    ghost Value = { DomainBox };

    ghost view = { λ d. record { olds = d.olds; region = d.region } };

    ghost invariant = { λ d. In d.region d.olds × (AreSmall d.olds → HasSmallEnds d.region) };
}

// Notes the place of a parameter's record, where there is such a parameter and no place is noted.
fn note(found: &mut Vec<Option<usize>>, param: u32, at: usize)
    ensures { found.new.items ≡ noted found.old.items param at }
{
    if param == 0 {
        return;
    }
    let place = param as usize - 1;
    if place < found.len() && found[place].is_none() {
        found[place] = Some(at);
    }
}

// The place of each parameter's record, the first where there are more.
fn places_by_param(
    alloc: Global,
    rows: &[DomainRow],
    params: u64,
) -> Result<Vec<Option<usize>>, NoMemory>
    ensures places { IfOk result (λ found. found.items ≡ places_from 1 params rows.now) }
    ensures len { IfOk result (λ found. length found.items ≡ params) }
{
    let mut found = vec![in alloc; None::<usize>; params as usize]?;
    for at in 0..rows.len() {
        note(&mut found, rows[at].param, at);
    }
    Ok(found)
}

// The record at a place.
fn row_at(rows: &[DomainRow], at: Option<usize>) -> Option<DomainRow>
    requires { IfSome at (λ place. place < length rows.now) }
    ensures { result ≡ row_at rows.now at }
{
    match at {
        Some(place) => Some(rows[place]),
        None => None,
    }
}

fn is_small(number: i64) -> bool
    ensures { result ≡ small.is_small number }
{
    number.unsigned_abs() <= 1 << 50
}

// The domain of one parameter.
fn domain(row: Option<DomainRow>, param: u32, old: i64) -> Result<(i64, i64), DomainFault>
    ensures domain { IfOk result (λ domain. domain ≡ domain_of old row) }
    ensures none { OnOk result (fault_of param old row ≡ None) }
    ensures fault { IfErr result (λ fault. fault_of param old row ≡ Some fault) }
{
    let Some(row) = row else {
        return Ok((old, old));
    };
    if row.lo > row.hi {
        Err(DomainFault::Empty(param))
    } else if !is_small(row.lo) || !is_small(row.hi) {
        Err(DomainFault::TooLarge(param))
    } else if old < row.lo || row.hi < old {
        Err(DomainFault::MissesOld(param))
    } else {
        Ok((row.lo, row.hi))
    }
}

fn is_inside(interval: (i64, i64), value: i64) -> bool
    ensures { result ≡ (int_le interval.0 value && int_le value interval.1) }
{
    interval.0 <= value && value <= interval.1
}

fn sliced(is_needed: bool, domain: (i64, i64), old: i64) -> (i64, i64)
    ensures { result ≡ (if is_needed then domain else (old, old)) }
{
    if is_needed { domain } else { (old, old) }
}

impl Domains {
    /// The domains of the records, of which no two are of one parameter. A parameter without a record has its old constant
    /// alone. The fault is that of the first parameter with one.
    pub fn new(
        alloc: Global,
        olds: &List<i64>,
        rows: &List<DomainRow>,
    ) -> Result<Domains, DomainFault>
        requires { length olds.now < 2 ^ 32 }
        ensures olds { IfOk result (λ domains. domains.olds ≡ olds.now) }
        ensures region { IfOk result (λ domains. domains.region ≡ domains_from 1 olds.now rows.now) }
        ensures sound { OnOk result (first_fault 1 olds.now rows.now ≡ None) }
        ensures fault { IfErr result (λ fault. fault ≢ DomainFault.NoMemory → first_fault 1 olds.now rows.now ≡ Some fault) }
    {
        let mut region = Intervals::new(alloc, olds.len() as u32)?;
        let records = rows.as_slice();
        let found = places_by_param(alloc, records, olds.len())?;
        for (i, old) in olds.as_slice().iter().enumerate() {
            match domain(row_at(records, found[i]), i as u32 + 1, *old) {
                Ok((lo, hi)) => region.set(i as u32, lo, hi),
                Err(fault) => return Err(fault),
            }
        }
        let olds = List::from_slice(alloc, olds.as_slice())?;
        Ok(Domains {
            alloc,
            olds,
            region,
        })
    }

    /// The box of all points of the domains.
    pub fn whole(&self) -> Result<PBox, NoMemory>
        ensures { IfOk result (λ region. region ≡ self.now.region) }
    {
        self.region.copy(self.alloc)
    }

    /// The domains as intervals, one for each parameter, each of which holds the old constant. Where the old constants lie
    /// within 2^50 in size, the ends of all domains do.
    pub fn region(&self) -> &PBox
        ensures region { result.now ≡ self.now.region }
        ensures old { In self.now.region self.now.olds }
        ensures many { length self.now.region ≡ length self.now.olds }
        ensures small { AreSmall self.now.olds → HasSmallEnds self.now.region }
    {
        &self.region
    }

    /// The box in which each parameter that is not needed has its old constant alone.
    pub fn slice(&self, needed: &ParamSet) -> Result<PBox, NoMemory>
        ensures { IfOk result (λ region. region ≡ sliced_from 1 self.now.olds self.now.region needed.now) }
    {
        let mut region = Intervals::new(self.alloc, self.region.len())?;
        for i in 0..self.region.len() {
            let old = *self.olds.at(u64::from(i));
            let (lo, hi) = sliced(needed.has(i + 1), self.region.get(i), old);
            region.set(i, lo, hi);
        }
        Ok(region)
    }

    /// Whether the point has a value for each parameter, each in its domain.
    pub fn holds(&self, point: &Point) -> bool
        ensures { result ≡ is_in self.now.region point.now }
    {
        if point.len() != u64::from(self.region.len()) {
            return false;
        }
        for i in 0..self.region.len() {
            if !is_inside(self.region.get(i), point.get(i)) {
                return false;
            }
        }
        true
    }
}
