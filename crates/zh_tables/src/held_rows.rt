//! How many rows an export has, and how many returns are due.

ghost use Rattle.std.specs.Prelude.{◌≡◌, ◌≤◌, length};
ghost use Rattle.zh_tables.specs.HeldRows.{rows_held};
ghost use Rattle.zh_tables.specs.Returns.{returns_in};

use zh_districts::Setup;

/// How many rows an export has, and how many returns are due.
#[derive(Clone, Copy)]
pub struct HeldRows {
    pub held: u32,
    /// One for each list that stands, in each municipality.
    pub due: u32,
}

/// The number of returns that are due in a municipality: one for each list that stands there, so at most 32.
fn due_in(setup: &Setup, municipality: u32) -> u32
    requires from_one { 1 ≤ municipality }
    requires there { municipality ≤ length setup.now.municipalities }
    ensures due { result ≡ length (returns_in setup.now municipality) }
    ensures few { result ≤ 32 }
{
    let constituency = setup.constituency_of(municipality);
    let mut due = 0;
    for place in 0..setup.groups() {
        if setup.stands(constituency, place + 1) {
            due += 1;
        }
    }
    due
}

impl HeldRows {
    /// `held` rows, and the returns that are due in the set-up.
    pub fn new(setup: &Setup, held: u32) -> HeldRows
        ensures { result ≡ rows_held setup.now held }
    {
        let mut due = 0;
        for place in 0..setup.municipalities() {
            due += due_in(setup, place + 1);
        }
        HeldRows { held, due }
    }
}
