// What carrying events out comes to, on worked rows and on cases in which something of one window might stay behind in another.
// They are carried out by `desktop`, and by `server` on lent memory with a screen that is fed by what it sends; and so are events by chance.
#![tactic(auto)]

#[cfg(test)]
mod tests;
