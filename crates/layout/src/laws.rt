// Laws of the head of a lent work; what they say is in specs/Laws.antt.
ghost use Rattle.layout.specs.Laws.{SoundWorks, Spare, SpareWords, Reloads};

// A work that passes the tests holds a sound desk.
pub fn soundness_stands()
    ensures { SoundWorks }
{}

// What is spare in a work does not matter.
pub fn spare_stands()
    ensures { Spare }
{}

// Nor does anything from the spare words on, in a work that is sound.
pub fn spare_words_stand()
    ensures { SpareWords }
{}

// What is loaded is what was stored.
pub fn reload_stands()
    ensures { Reloads }
{}
