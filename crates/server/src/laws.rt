// What holds of whole histories of calls; what it says is in specs/History.antt.
ghost use Rattle.server.specs.History.{AllServed, AllUnseen, OrderLent, PicturesLent};
ghost use Rattle.server.specs.Rows.{RowsTold, RowsUnseen, RowAlone};

// After every history the memory holds the desk, the screen shows it, and every program was told what the desk tells it; others' paint and keys
// change nothing of that; the order and the pictures in the lent memory keep what the desk promises.
pub fn histories_stand()
    ensures served { AllServed }
    ensures unseen { AllUnseen }
    ensures order { OrderLent }
    ensures pictures { PicturesLent }
{}

// What a program takes of the words after each call is what the desk tells it, in bytes, and does not depend on others.
pub fn rows_stand()
    ensures told { RowsTold }
    ensures unseen { RowsUnseen }
    ensures alone { RowAlone }
{}
