//! What is held and what is lost.
ghost use Rattle.std.specs.Prelude.{◌≡◌};
ghost use Rattle.erasures.specs.Agreement.{held};

use codes::Code;
use fields::Field;

/// The symbol that a place holds, if it holds one: its place is one of the code's and its symbol one of the field's.
#[tactic(auto, unfolding(erasures::specs::Agreement::held))]
pub fn symbol<C: Code>(code: &C, cells: &[Option<u16>], place: usize) -> Option<u16>
    ensures { result ≡ held (C.meaning code.now) cells.now place }
{
    let place = code.place(place).ok()?;
    let value = (*cells.get(place)?)?;
    code.field().element(value).ok()
}
