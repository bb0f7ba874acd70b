//! The count.
ghost use Rattle.std.specs.Prelude.{◌≡◌, ◌<◌, ◌+◌, ◌-◌, ◌++◌, ◌≤◌, ◌^◌, length, drop, IfOk, IfSome, Some, None, false, true, All};
ghost use Rattle.zh_districts.specs.Canton.{has_municipality};
ghost use Rattle.zh_districts.specs.Misplaced.{misplaced};
ghost use Rattle.zh_returns.specs.Limits.{IsTally, IsEntry};
ghost use Rattle.zh_returns.specs.Payload.{TakesPayload, payload_spelling};
ghost use Rattle.zh_returns.specs.Tables.{key_of, place_of};
ghost use Rattle.zh_returns.specs.Tally.{Tally, empty, held};
ghost use Rattle.zh_returns.specs.declared.command.Format.{Format};
ghost use Rattle.std.specs.FinMap as map;
ghost use Rattle.std.specs.FinSet as set;

use crate::entry::Entry;
use crate::payload::{PAYLOAD_LENGTH, read_tables, write_tables};
use std::alloc::{AllocError, Global};
use std::marker::Model;
use zh_districts::{Misplaced, Setup};

/// Why the list of a place does not stand in the municipality of the place. None if it does.
pub(crate) fn misplaced_at(setup: &Setup, place: usize) -> Option<Misplaced>
    requires { place < PLACES }
    ensures { result ≡ misplaced setup.now (key_of place).0 (key_of place).1 }
{
    let municipality = (place / LISTS) as u32 + 1;
    let list = (place % LISTS) as u32 + 1;
    setup.misplaced(municipality, list)
}

/// The greatest number of municipalities of a set-up.
pub(crate) const MUNICIPALITIES: usize = 512;

/// The greatest number of groups of a set-up, and so of lists in a municipality.
pub(crate) const LISTS: usize = 32;

/// The number of places in the table of entries.
pub(crate) const PLACES: usize = MUNICIPALITIES * LISTS;

/// The greatest number of votes of a return.
pub const MOST_VOTES: u32 = 1_000_000_000;

/// What the municipalities have returned so far, for one set-up: what is held under each municipality and list, which
/// municipalities are closed, and how many commands were accepted. Municipalities and lists are numbered from 1. `new`
/// allocates all of its memory; no other call allocates any.
#[derive(Drop)]
pub struct Count<'s> {
    setup: &'s Setup,
    entries: Vec<Option<Entry>>,
    closed: Vec<bool>,
    accepted: u64,
}

impl<'s> Model for Count<'s> {
    ghost use Rattle.zh_returns.specs.Tally.{Tally};

    ghost Value = { Tally };

    ghost use Rattle.zh_returns.specs.Code.{tally_code};

    ghost coded = { tally_code };

    ghost use Rattle.zh_returns.specs.Inside.{tally_of, IsInside};

    ghost view = { tally_of };

    ghost invariant = { IsInside };
}

/// A table without entries.
fn absent(alloc: Global, places: usize) -> Result<Vec<Option<Entry>>, AllocError>
    ensures places { IfOk result (λ table. length table.items ≡ places) }
    ensures absent { IfOk result (λ table. All (λ entry. entry ≡ None) table.items) }
{
    vec![in alloc; None; places]
}

/// Flags that are not set.
fn unset(alloc: Global, places: usize) -> Result<Vec<bool>, AllocError>
    ensures places { IfOk result (λ flags. length flags.items ≡ places) }
    ensures unset { IfOk result (λ flags. All (λ flag. flag ≡ false) flags.items) }
{
    vec![in alloc; false; places]
}

fn clear_entries(table: &mut [Option<Entry>])
    ensures length { length table.new ≡ length table.old }
    ensures blank { All (λ entry. entry ≡ None) table.new }
{
    table.fill(None);
}

fn clear_flags(flags: &mut [bool])
    ensures length { length flags.new ≡ length flags.old }
    ensures blank { All (λ flag. flag ≡ false) flags.new }
{
    flags.fill(false);
}

/// The place of a key in the table of entries.
fn index_of(municipality: u32, list: u32) -> usize
    requires municipality_from_one { 1 ≤ municipality }
    requires municipality_within { municipality ≤ MUNICIPALITIES }
    requires list_from_one { 1 ≤ list }
    requires list_within { list ≤ LISTS }
    ensures place { result ≡ place_of municipality list }
    ensures within { result < PLACES }
{
    (municipality - 1) as usize * LISTS + (list - 1) as usize
}

impl<'s> Count<'s> {
    /// The empty count of an election. Fails if memory is refused.
    pub fn new(alloc: Global, setup: &'s Setup) -> Result<Count<'s>, AllocError>
        ensures { IfOk result (λ count. count ≡ empty setup.now) }
    {
        // Each key of the set-up has a place.
        let has_places = setup.municipalities() as usize <= MUNICIPALITIES
            && setup.groups() as usize <= LISTS;
        prove!(has_places);
        Ok(Count {
            setup,
            entries: absent(alloc, PLACES)?,
            closed: unset(alloc, MUNICIPALITIES)?,
            accepted: 0,
        })
    }

    /// The set-up that the count is for.
    pub fn setup(&self) -> &'s Setup
        ensures { result.now ≡ self.now.canton }
    {
        self.setup
    }

    /// How many commands were accepted since the count was empty.
    pub fn accepted(&self) -> u64
        ensures accepted { result ≡ self.now.accepted }
        ensures limits { IsTally self.now }
    {
        self.accepted
    }

    /// What is held for a list in a municipality. For a list that does not stand there, nothing is.
    pub fn entry(&self, municipality: u32, list: u32) -> Option<Entry>
        requires from_one { 1 ≤ municipality }
        requires there { municipality ≤ length self.now.canton.municipalities }
        requires list_from_one { 1 ≤ list }
        requires list_there { list ≤ length self.now.canton.groups }
        ensures held { result ≡ held self.now municipality list }
        ensures limits { IfSome result IsEntry }
    {
        self.entries[index_of(municipality, list)]
    }

    /// Whether a municipality is closed.
    pub fn closed(&self, municipality: u32) -> bool
        requires from_one { 1 ≤ municipality }
        requires there { municipality ≤ length self.now.canton.municipalities }
        ensures { result ≡ set.contains self.now.closed municipality }
    {
        self.closed[(municipality - 1) as usize]
    }

    /// Writes the count to the front of `out` in format Two as docs/FORMATS.md describes it.
    pub fn encode(&self, out: &mut [u8])
        requires room { PAYLOAD_LENGTH ≤ length out.old }
        ensures spelling { out.new ≡ payload_spelling Format.Two self.now ++ drop PAYLOAD_LENGTH out.old }
        ensures limits { IsTally self.now }
    {
        write_tables(&self.entries, &self.closed, self.accepted, out);
    }

    /// Replaces this count with the one that has these bytes in one of the formats, for the same set-up. If there is none,
    /// returns false and becomes the empty count.
    pub fn decode(&mut self, bytes: &[u8]) -> bool
        ensures { TakesPayload self.old bytes.now result self.new }
    {
        match read_tables(self.setup, bytes, &mut self.entries, &mut self.closed) {
            Some(accepted) => {
                self.accepted = accepted;
                true
            }
            None => {
                clear_entries(&mut self.entries);
                clear_flags(&mut self.closed);
                self.accepted = 0;
                false
            }
        }
    }

    /// Replaces what is held under a key with an entry. The list must stand in the municipality.
    pub(crate) fn put(&mut self, municipality: u32, list: u32, entry: Entry)
        requires place { misplaced self.old.canton municipality list ≡ None }
        requires entry { IsEntry entry }
        ensures { self.new ≡ record self.old { entries = map.insert self.old.entries (municipality, list) entry } }
    {
        let table = &mut self.entries;
        table[index_of(municipality, list)] = Some(entry);
    }

    pub(crate) fn close(&mut self, municipality: u32)
        requires { has_municipality self.old.canton municipality ≡ true }
        ensures { self.new ≡ record self.old { closed = set.insert self.old.closed municipality } }
    {
        let flags = &mut self.closed;
        flags[(municipality - 1) as usize] = true;
    }

    pub(crate) fn reopen(&mut self, municipality: u32)
        requires { has_municipality self.old.canton municipality ≡ true }
        ensures { self.new ≡ record self.old { closed = set.remove self.old.closed municipality } }
    {
        let flags = &mut self.closed;
        flags[(municipality - 1) as usize] = false;
    }

    /// Counts an accepted command.
    pub(crate) fn count_accepted(&mut self)
        requires { self.old.accepted < 2 ^ 64 - 1 }
        ensures { self.new ≡ record self.old { accepted = self.old.accepted + 1 } }
    {
        self.accepted += 1;
    }
}
