// The desk: what a window system has to do, as definitions (specs/), and the theorems about them.
// Each function below does nothing but carry a theorem as its contract: the crate is not proved unless the theorem is.
#![tactic(auto)]

ghost use Rattle.model.specs.Promise.{KeysTo, HeldBy, Ordered, ByOwner, ByPaint, Unseen};
ghost use Rattle.model.specs.Grid.{grid, FewBoxes};
ghost use Rattle.model.specs.Kept.{EveryCover, Simulation, UnseenOf};
ghost use Rattle.model.specs.Sound.{StaysSound};
ghost use Rattle.model.specs.System.{Exact};
ghost use Rattle.model.specs.Worked.{Worked};

// Every desk that events lead to is sound.
pub fn soundness_stands()
    ensures { StaysSound }
{}

// The keys go to a window that is there, and so does the pointer while it is held.
pub fn keys_stand()
    ensures keys { KeysTo }
    ensures held { HeldBy }
{}

// Every window that is there stands in the order once, and no other.
pub fn order_stands()
    ensures { Ordered }
{}

// A picture is changed by its owner only, and only by paint.
pub fn pictures_stand()
    ensures owner { ByOwner }
    ensures paint { ByPaint }
{}

// A program is told the same, with any paint of others and any keys typed for others.
pub fn unseen_stands()
    ensures { Unseen }
{}

// The same, of any system that tells what the desk tells.
pub fn unseen_of_stands<S>()
    ensures { UnseenOf S }
{}

// The promise follows from single steps, for a system over any type of states.
pub fn simulation_stands<S>()
    ensures { Simulation S }
{}

// The promise, of the system that cuts its damage by any exact cover.
pub fn covers_stand()
    ensures { EveryCover }
{}

// The cells of the grid of all windows' edges cover the damage of every event exactly, and they are few.
pub fn grid_stands()
    ensures exact { Exact grid }
    ensures few { FewBoxes }
{}

// Four rows of events worked out by hand come to the screens and words that they should.
pub fn worked_rows_stand()
    ensures { Worked }
{}
