//! The set-up that the program uses if it is given none.

ghost use Rattle.std.specs.Prelude.{◌≡◌, IfOk};
ghost use Rattle.zh_setups.specs.Rehearsal.{rehearsal};

use crate::text::{SetupFault, read_setup};
use std::alloc::{AllocError, Global};
use zh_districts::Setup;

/// The text of the rehearsal's set-up, the same as that of `data/rehearsal.toml`.
pub(crate) const TEXT: &str = r#"version = 1
house = 10
[[constituency]]
name = "Nord"
persons = 5000
[[constituency]]
name = "Mitte"
persons = 3000
[[constituency]]
name = "West"
persons = 2000
[[municipality]]
name = "N"
constituency = 1
[[municipality]]
name = "M"
constituency = 2
[[municipality]]
name = "W"
constituency = 3
[[group]]
name = "A"
stands = [1, 2, 3]
[[group]]
name = "B"
stands = [1, 2, 3]
[[group]]
name = "C"
stands = [1, 2, 3]
"#;

/// The rehearsal's set-up, read from its text: ten seats, three constituencies with one municipality each, and three
/// groups that stand in every constituency.
pub fn rehearsal(alloc: Global) -> Result<Setup, AllocError>
    ensures { IfOk result (λ setup. setup ≡ rehearsal) }
{
    match read_setup(alloc, TEXT.as_bytes()) {
        Ok(setup) => Ok(setup),
        Err(refusal) => match refusal.fault {
            SetupFault::Memory => Err(AllocError),
            _ => unreachable!(),
        },
    }
}
