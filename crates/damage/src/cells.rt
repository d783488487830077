// The cells of the grid that are damaged, each written with its dots.
// Where the words go stays a lent slice and a place in it, as `send` is given them and pixels takes them.
ghost use Rattle.std.specs.Prelude.{◌≡◌, ℕ, ◌+◌, ◌-◌, ◌*◌, ◌<◌, ◌≤◌, [], ◌∷◌, length};
ghost use Rattle.model.specs.System.{front_at};
ghost use Rattle.model.specs.Grid.{sides};
ghost use Rattle.model.specs.Grid.{cell as cell_at};
ghost use Rattle.layout.specs.State.{desk_of};
ghost use Rattle.damage.specs.Encode.{Sent};
ghost use Rattle.damage.specs.Cells.{seen, OverIf, OverIf-prop, dot_row, dot_rows, row_of, cells_of, OneFront};
ghost use Rattle.damage.specs.Scenes.{in_scene, written};

use crate::head::Head;
use crate::scene::Scene;
use crate::types::Dot;
use geometry::{Rect, past};
use pixels::Span;
use stack::state::Window;

// A box of the screen that has columns, and the window that lies over all of it, or none.
#[derive(Clone, Copy)]
struct Pane<'a> {
    cell: Rect,
    front: Option<Window>,
    pictures: &'a [u32],
    ghost inside: { cell.left < cell.right },
    ghost over: { OverIf (length pictures.now) front cell } by { OverIf-prop (length pictures.now) front cell },
}

impl Pane<'_> {
    // Writes its dots in the row j, copied whole from the window, or 0 where there is none.
    fn send_line(&self, j: u16, sent: &mut [u32], at: usize) -> usize
        requires top { self.now.cell.top ≤ j }
        requires below { j < self.now.cell.below }
        requires room { at + (self.now.cell.right - self.now.cell.left) ≤ length sent.old }
        ensures { let r = self.now.cell in Sent at result (dot_row (seen self.now.pictures.now self.now.front) r.left (r.right - r.left) j) sent.old sent.new }
    {
        let wide = usize::from(self.cell.wide());
        match self.front {
            Some(w) => {
                let span = Span {
                    x: past(self.cell.left, w.x),
                    y: past(j, w.y),
                    wide,
                };
                let _ = pixels::copy_out(self.pictures, w.picture(), span, sent, at);
                at + wide
            }
            None => {
                let _ = pixels::clear(sent, at, wide);
                at + wide
            }
        }
    }

    // Writes its dots, its rows from above.
    fn send_dots(&self, sent: &mut [u32], at: usize) -> usize
        requires { at + (self.now.cell.below - self.now.cell.top) * (self.now.cell.right - self.now.cell.left) ≤ length sent.old }
        ensures { let r = self.now.cell in Sent at result (dot_rows (seen self.now.pictures.now self.now.front) r.left (r.right - r.left) r.top (r.below - r.top)) sent.old sent.new }
    {
        let mut end = at;
        for j in self.cell.top..self.cell.below {
            end = self.send_line(j, sent, end);
        }
        end
    }
}

impl Scene<'_> {
    // Writes a box that has one window in front, or none.
    fn send_box(&self, cell: Rect, sent: &mut [u32], at: usize) -> usize
        requires columns { cell.left < cell.right }
        requires rows { cell.top < cell.below }
        requires right { cell.right ≤ 32768 }
        requires below { cell.below ≤ 32768 }
        requires front { OneFront self.now.after.now self.now.pictures.now cell }
        requires room { at + 2 + (cell.below - cell.top) * (cell.right - cell.left) ≤ length sent.old }
        ensures { Sent at result (written self.now (sides cell.left cell.right cell.top cell.below ∷ [])) sent.old sent.new }
    {
        let corner = Dot {
            i: cell.left,
            j: cell.top,
        };
        let pane = Pane {
            cell,
            front: corner.front_window(self.after),
            pictures: self.pictures,
        };
        let head = Head {
            x: cell.left,
            y: cell.top,
            wide: cell.wide(),
            high: cell.high(),
        };
        let (place, size) = head.words();
        sent[at] = place;
        sent[at + 1] = size;
        pane.send_dots(sent, at + 2)
    }

    // Writes a cell, if it has dots and they are damaged.
    fn send_cell(&self, cell: Rect, sent: &mut [u32], at: usize) -> usize
        requires right { cell.right ≤ 32768 }
        requires below { cell.below ≤ 32768 }
        requires front { OneFront self.now.after.now self.now.pictures.now cell }
        requires room { at + length (written self.now (cell_at (in_scene self.now) cell.left cell.right cell.top cell.below)) ≤ length sent.old }
        ensures { Sent at result (written self.now (cell_at (in_scene self.now) cell.left cell.right cell.top cell.below)) sent.old sent.new }
    {
        if cell.is_empty() {
            return at;
        }
        let corner = Dot {
            i: cell.left,
            j: cell.top,
        };
        if !self.hurt.at(self.before, self.after, corner) {
            return at;
        }
        self.send_box(cell, sent, at)
    }

    // Writes the cells between two rows that are damaged, from the left.
    fn send_row(&self, top: u16, below: u16, sent: &mut [u32], at: usize) -> usize
        requires low { below ≤ 32768 }
        requires down { (i j : ℕ) → top ≤ j → j < below → front_at (desk_of self.now.after.now self.now.pictures.now) i j ≡ front_at (desk_of self.now.after.now self.now.pictures.now) i top }
        requires room { at + length (written self.now (row_of (in_scene self.now) top below 0 self.now.xs.now)) ≤ length sent.old }
        ensures { Sent at result (written self.now (row_of (in_scene self.now) top below 0 self.now.xs.now)) sent.old sent.new }
    {
        if top >= below {
            return at;
        }
        let mut end = at;
        let mut left = 0;
        for x in self.xs {
            let right = *x;
            let cell = Rect {
                left,
                top,
                right,
                below,
            };
            end = self.send_cell(cell, sent, end);
            left = right;
        }
        end
    }

    // Writes the cells of the grid that are damaged, row by row from above.
    pub(crate) fn send_cells(&self, sent: &mut [u32], at: usize) -> usize
        requires { at + length (written self.now (cells_of (in_scene self.now) self.now.xs.now 0 self.now.ys.now)) ≤ length sent.old }
        ensures { Sent at result (written self.now (cells_of (in_scene self.now) self.now.xs.now 0 self.now.ys.now)) sent.old sent.new }
    {
        let mut end = at;
        let mut top = 0;
        for y in self.ys {
            end = self.send_row(top, *y, sent, end);
            top = *y;
        }
        end
    }
}
