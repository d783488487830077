// Each program's own words, out of the row that has the words of all, and one word after another out of its own row.
ghost use Rattle.std.specs.Prelude.{◌≡◌, ◌+◌, ◌-◌, ◌≤◌, length};
ghost use Rattle.protocol.specs.Added.{Added};
ghost use Rattle.std.specs.List.{between};
ghost use Rattle.server.specs.Mailbox.{Measured, OwnFits, Took, Taken, next_said, next_word, NextEnds, refused};
ghost use Rattle.server.specs.MailboxLaws.{WordsReadBack, WordsReadOnly, WordsFaultFirst, RowsTogether, ToldTogether};
ghost use Rattle.server.specs.MailboxLaws.{OwnTogether, OwnWords, OwnAlone, OwnShort, Heard, TakenHeard};

use protocol::{Fault, Word, read_word};

// Why a row of words is not taken. In each case nothing is written.
#[derive(Clone, Copy, PartialEq, Eq)]
pub enum Stop {
    // The bytes are no words: the first byte in fault, counted from the row's first.
    Fault { place: usize },
    // The row that was lent is too short: how many bytes it needs.
    Short { needs: usize },
}

impl From<Fault> for Stop {
    ghost use Rattle.server.specs.declared.mailbox.Stop.TheVariants.{Fault};

    ghost from_gives = { λ fault stop. stop ≡ Fault fault.place };

    fn from(fault: Fault) -> Stop {
        Stop::Fault { place: fault.place }
    }
}

// The next word of a row, and where it ends; none at the end of the row.
pub fn next(row: &[u8], at: usize) -> Result<Option<(Word, usize)>, Stop>
    ensures value { next_said row.now result ≡ refused (next_word row.now at) }
    ensures ends { NextEnds row.now at result }
{
    if at >= row.len() {
        return Ok(None);
    }
    let ((_, word), end) = read_word(row, at)?;
    Ok(Some((word, end)))
}

// How many bytes the words that are told to one program have, or the first byte in fault.
fn own_size(words: &[u8], program: u8) -> Result<usize, Fault>
    ensures { Measured program words.now result }
{
    let mut size: usize = 0;
    let mut at: usize = 0;
    // where a word ends is known once it is read
    'measure: while at < words.len() {
        let ((told, _), end) = read_word(words, at)?;
        if told == program {
            size += end - at;
        }
        at = end;
    }
    Ok(size)
}

// Copies the bytes of a row from `from` up to `to` into another, from its byte `at` on: where they end there.
fn copy_part(words: &[u8], from: usize, to: usize, row: &mut [u8], at: usize) -> usize
    requires order { from ≤ to }
    requires within { to ≤ length words.now }
    requires room { at + (to - from) ≤ length row.old }
    ensures { Added at result (between from to words.now) row.old row.new }
{
    let end = at + (to - from);
    row[at..end].copy_from_slice(&words[from..to]);
    end
}

// Copies the words of a row that are told to one program into a row that holds them, and says how many bytes they have.
fn copy_own(words: &[u8], program: u8, row: &mut [u8]) -> usize
    requires { OwnFits program words.now (length row.old) }
    ensures { Took program words.now row.old row.new result }
{
    let mut used: usize = 0;
    let mut at: usize = 0;
    // as above, a word at a time
    'copy: while at < words.len() {
        // the words were read before, when they were measured: none is in fault
        let Ok(((to, _), end)) = read_word(words, at) else {
            break 'copy;
        };
        if to == program {
            used = copy_part(words, at, end, row, used);
        }
        at = end;
    }
    used
}

// Takes the words that are told to one program, as they stand in the row of all, into the row that the program lent: how many bytes they have.
// What stands behind them stays as it is, and so does the whole row if they can't be taken.
pub fn take(words: &[u8], program: u8, row: &mut [u8]) -> Result<usize, Stop>
    ensures { Taken program words.now row.old row.new result }
{
    let needs = own_size(words, program)?;
    if row.len() < needs {
        return Err(Stop::Short { needs });
    }
    Ok(copy_own(words, program, row))
}

// Rows of words are read as they are written, and each program's own are what it is told, whatever others are told.
// This function does nothing: its contract is the theorems (specs/MailboxLaws.antt).
pub fn mailbox_stands()
    ensures back { WordsReadBack }
    ensures only { WordsReadOnly }
    ensures first { WordsFaultFirst }
    ensures rows { RowsTogether }
    ensures bytes { ToldTogether }
    ensures together { OwnTogether }
    ensures words { OwnWords }
    ensures alone { OwnAlone }
    ensures short { OwnShort }
    ensures heard { Heard }
    ensures taken { TakenHeard }
{}

#[cfg(test)]
mod tests;
