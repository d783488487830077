// What holds of the state's order and of the lent pictures at every event.
ghost use Rattle.desktop.specs.Lent.{OrderKept, PicturesKept};

pub fn lent_stand()
    ensures order { OrderKept }
    ensures pictures { PicturesKept }
{}
