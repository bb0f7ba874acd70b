//! The set-up of an election.
ghost use Rattle.std.specs.Prelude.{◌≡◌, ◌≤◌, ◌-◌, true, length, slice_get, option_map, map, IfOk, IfNone};
ghost use Rattle.zh_districts.specs.Canton.{IsCanton, has_municipality, persons_of, constituency_of, stands};
ghost use Rattle.zh_districts.specs.Misplaced.{misplaced};
ghost use Rattle.zh_districts.specs.Seats.{persons};
ghost use Rattle.zh_districts.specs.Spelling.{setup_spelling};

use crate::bytes::{put_constituencies, put_groups, put_municipalities, put_quorum};
use std::alloc::{AllocError, Global};
use std::marker::Model;

/// Why a list does not stand in a municipality.
#[derive(Clone, Copy)]
pub enum Misplaced {
    /// The set-up has no municipality with this number.
    Municipality,
    /// The list does not stand in the constituency of the municipality.
    List,
}

/// A constituency and the number of its persons.
#[derive(Drop)]
pub struct Constituency {
    pub name: String,
    pub persons: u32,
}

/// A municipality and the number of its constituency, counted from 1.
#[derive(Drop)]
pub struct Municipality {
    pub name: String,
    pub constituency: u32,
}

/// A group, and for each constituency, in order, whether it stands there.
#[derive(Drop)]
pub struct Group {
    pub name: String,
    pub stands: Vec<bool>,
}

/// The parts of a set-up, which need not be within its limits.
#[derive(Drop)]
pub struct Draft {
    pub house: u32,
    pub constituencies: Vec<Constituency>,
    pub municipalities: Vec<Municipality>,
    pub groups: Vec<Group>,
    /// The canton-wide quorum, if there is one, in per mille of the votes of the whole canton.
    pub canton_quorum: Option<u32>,
}

/// The house, the constituencies with their municipalities, the groups, and a canton-wide quorum, if there is one.
/// Constituencies, municipalities and groups are numbered from 1, each in the order of the set-up text. There are 1 to 32
/// constituencies, 1 to 512 municipalities and 1 to 32 groups.
#[derive(Drop)]
pub struct Setup {
    house: u32,
    constituencies: Vec<Constituency>,
    municipalities: Vec<Municipality>,
    groups: Vec<Group>,
    canton_quorum: Option<u32>,
}

impl Model for Setup {
    ghost use Rattle.zh_districts.specs.Canton.{Canton, IsCanton};

    ghost Value = { Canton };

    ghost use Rattle.zh_districts.specs.Inside.{canton_of};

    ghost view = { canton_of };

    ghost invariant = { λ s. IsCanton (canton_of s) };
}

impl Setup {
    ghost use Rattle.zh_districts.specs.Parts.{draft};

    /// The set-up of these parts, which must be within its limits.
    pub fn assembled(parts: Draft) -> Setup
        requires { IsCanton (draft parts) }
        ensures { result ≡ draft parts }
    {
        let Draft {
            house,
            constituencies,
            municipalities,
            groups,
            canton_quorum,
        } = parts;
        Setup {
            house,
            constituencies,
            municipalities,
            groups,
            canton_quorum,
        }
    }

    /// The seats of the parliament, 1 to 400.
    pub fn house(&self) -> u32
        ensures house { result ≡ self.now.house }
        ensures limits { IsCanton self.now }
    {
        self.house
    }

    /// The number of constituencies, 1 to 32.
    pub fn constituencies(&self) -> u32
        ensures count { result ≡ length self.now.constituencies }
        ensures limits { IsCanton self.now }
    {
        self.constituencies.len() as u32
    }

    /// The persons of a constituency, 1 to 10,000,000.
    pub fn persons(&self, constituency: u32) -> u32
        requires from_one { 1 ≤ constituency }
        requires there { constituency ≤ length self.now.constituencies }
        ensures { result ≡ persons_of self.now constituency }
    {
        self.constituencies[(constituency - 1) as usize].persons
    }

    /// The persons of each constituency, in the order of the set-up. Fails if memory is refused.
    pub(crate) fn each_persons(&self, alloc: Global) -> Result<Vec<u64>, AllocError>
        ensures persons { IfOk result (λ numbers. numbers.items ≡ persons self.now) }
        ensures limits { IsCanton self.now }
    {
        each_persons(alloc, &self.constituencies)
    }

    /// The name of a constituency, 1 to 40 bytes.
    pub fn constituency_name(&self, constituency: u32) -> &str
        requires from_one { 1 ≤ constituency }
        requires there { constituency ≤ length self.now.constituencies }
        ensures { option_map (λ x. x.name) (slice_get self.now.constituencies (constituency - 1)) ≡ Some result.now }
    {
        let named = &self.constituencies[(constituency - 1) as usize];
        named.name.as_str()
    }

    /// The number of municipalities, 1 to 512.
    pub fn municipalities(&self) -> u32
        ensures count { result ≡ length self.now.municipalities }
        ensures limits { IsCanton self.now }
    {
        self.municipalities.len() as u32
    }

    /// Whether there is a municipality with this number.
    pub fn has_municipality(&self, municipality: u32) -> bool
        ensures there { result ≡ has_municipality self.now municipality }
        ensures range { result ≡ true → (1 ≤ municipality) × (municipality ≤ length self.now.municipalities) }
    {
        municipality >= 1 && municipality <= self.municipalities()
    }

    /// The number of the constituency in which a municipality lies.
    pub fn constituency_of(&self, municipality: u32) -> u32
        requires from_one { 1 ≤ municipality }
        requires there { municipality ≤ length self.now.municipalities }
        ensures number { result ≡ constituency_of self.now municipality }
        ensures from_one { 1 ≤ result }
        ensures there { result ≤ length self.now.constituencies }
    {
        self.municipalities[(municipality - 1) as usize].constituency
    }

    /// The name of a municipality, 1 to 40 bytes.
    pub fn municipality_name(&self, municipality: u32) -> &str
        requires from_one { 1 ≤ municipality }
        requires there { municipality ≤ length self.now.municipalities }
        ensures { option_map (λ x. x.name) (slice_get self.now.municipalities (municipality - 1)) ≡ Some result.now }
    {
        let named = &self.municipalities[(municipality - 1) as usize];
        named.name.as_str()
    }

    /// The number of groups, 1 to 32.
    pub fn groups(&self) -> u32
        ensures count { result ≡ length self.now.groups }
        ensures limits { IsCanton self.now }
    {
        self.groups.len() as u32
    }

    /// Whether a group stands in a constituency.
    pub fn stands(&self, constituency: u32, group: u32) -> bool
        requires from_one { 1 ≤ constituency }
        requires there { constituency ≤ length self.now.constituencies }
        requires group_from_one { 1 ≤ group }
        requires group_there { group ≤ length self.now.groups }
        ensures { result ≡ stands self.now constituency group }
    {
        self.groups[(group - 1) as usize].stands[(constituency - 1) as usize]
    }

    /// Why a list does not stand in a municipality. None if it does.
    pub fn misplaced(&self, municipality: u32, list: u32) -> Option<Misplaced>
        ensures misplaced { result ≡ misplaced self.now municipality list }
        ensures municipality { IfNone result ((1 ≤ municipality) × (municipality ≤ length self.now.municipalities)) }
        ensures list { IfNone result ((1 ≤ list) × (list ≤ length self.now.groups)) }
    {
        if !self.has_municipality(municipality) {
            return Some(Misplaced::Municipality);
        }
        let constituency = self.constituency_of(municipality);
        if list == 0 || list > self.groups() || !self.stands(constituency, list) {
            return Some(Misplaced::List);
        }
        None
    }

    /// The name of a group, 1 to 40 bytes.
    pub fn group_name(&self, group: u32) -> &str
        requires from_one { 1 ≤ group }
        requires there { group ≤ length self.now.groups }
        ensures { option_map (λ x. x.name) (slice_get self.now.groups (group - 1)) ≡ Some result.now }
    {
        self.groups[(group - 1) as usize].name.as_str()
    }

    /// The canton-wide quorum, if there is one: 1 to 49 per mille of the votes of the whole canton.
    pub fn canton_quorum(&self) -> Option<u32>
        ensures quorum { result ≡ self.now.canton_quorum }
        ensures limits { IsCanton self.now }
    {
        self.canton_quorum
    }
}

/// The bytes of a set-up, at most 24,392, as docs/FORMATS.md describes them. Fails if memory is refused.
pub fn setup_bytes(alloc: Global, setup: &Setup) -> Result<Vec<u8>, AllocError>
    ensures spelling { IfOk result (λ bytes. bytes.items ≡ setup_spelling setup.now) }
    ensures length { IfOk result (λ bytes. length bytes.items ≤ 24392) }
{
    let mut out = Vec::new(alloc);
    out.extend_from_slice(&(setup.house as u16).to_be_bytes())?;
    put_constituencies(&mut out, &setup.constituencies)?;
    put_municipalities(&mut out, &setup.municipalities)?;
    put_groups(&mut out, &setup.groups)?;
    put_quorum(&mut out, setup.canton_quorum)?;
    Ok(out)
}

fn each_persons(alloc: Global, constituencies: &[Constituency]) -> Result<Vec<u64>, AllocError>
    ensures { IfOk result (λ numbers. numbers.items ≡ map (λ x. x.persons) constituencies.now) }
{
    constituencies
        .iter()
        .map(|x| u64::from(x.persons))
        .collect(alloc)
}
