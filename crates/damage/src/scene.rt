// What is written of an event, as the code that writes it is given it; what it means is in specs/.
ghost use Rattle.std.specs.Prelude.{ℕ, length};
ghost use Rattle.model.specs.System.{front_at};
ghost use Rattle.layout.specs.State.{desk_of};
ghost use Rattle.damage.specs.Cells.{Even, Low, Lent, Even-prop, Low-prop};

use crate::types::Hurt;
use layout::state::State;

// What an event damages, the desk before and after it, the pictures after it, and the lines of the grid, across and down: between two of
// them one window is in front.
#[derive(Clone, Copy)]
pub(crate) struct Scene<'a> {
    pub(crate) hurt: Hurt,
    pub(crate) before: &'a State,
    pub(crate) after: &'a State,
    pub(crate) pictures: &'a [u32],
    pub(crate) xs: &'a [u16],
    pub(crate) ys: &'a [u16],
    ghost lent: { Lent after.now (length pictures.now) },
    ghost x_low: { Low xs.now } by { Low-prop xs.now },
    ghost y_low: { Low ys.now } by { Low-prop ys.now },
    ghost across: { (j : ℕ) → Even (λ u. front_at (desk_of after.now pictures.now) u j) 0 xs.now } by { Even-prop (λ j u. front_at (desk_of after.now pictures.now) u j) xs.now },
    ghost down: { (i : ℕ) → Even (λ v. front_at (desk_of after.now pictures.now) i v) 0 ys.now } by { Even-prop (λ i v. front_at (desk_of after.now pictures.now) i v) ys.now },
}
