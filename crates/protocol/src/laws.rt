// What ties reading and writing. These functions do nothing: their contracts are the theorems.
ghost use Rattle.protocol.specs.Fitting.{FitsCarried};
ghost use Rattle.protocol.specs.Laws.{ReadsBack, ReadsOnly, FaultsFirst, FaultsWhereNone, Worked};
ghost use Rattle.protocol.specs.Laws.{ReadsWordBack, ReadsWordsOnly, WordFaultsFirst, WordFaultsWhereNone};

// Events are read as they are written, and nothing else is read; a fault is at the first byte that no event has.
pub fn events_stand()
    ensures back { ReadsBack }
    ensures only { ReadsOnly }
    ensures first { FaultsFirst }
    ensures none { FaultsWhereNone }
    ensures worked { Worked }
{}

// The same of words.
pub fn words_stand()
    ensures back { ReadsWordBack }
    ensures only { ReadsWordsOnly }
    ensures first { WordFaultsFirst }
    ensures none { WordFaultsWhereNone }
{}

// The events that bytes carry are those of which the promises of a system speak.
pub fn fits_stand()
    ensures { FitsCarried }
{}
