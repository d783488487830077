// Events by chance, on `desktop` and on `server` at once: after each the screen that is fed by boxes shows the desk's dots, and the same is told.
ghost use Rattle.std.specs.Prelude.{◌<◌};

use super::on_desktop::Plain;
use super::on_server::Served;
use super::same_words;
use layout::sizes::{Refusal, Sizes};
use layout::state::State;
use protocol::{Event, Kinds, Part, Patch};
use server::Outcome;
use std::process::Abort;
use std::test::Fail;

// Windows of 5 dots at most on 7 by 5 overlap often, and the dots of all pictures run out now and then.
const SIZES: Sizes = Sizes {
    wide: 7,
    high: 5,
    windows: 4,
    programs: 3,
    side: 5,
    dots: 60,
};

// The bytes of which colours and offers are a part.
const SOURCE: &[u8] = b"Each of these bytes is painted, or offered and pasted.";

// Numbers that look like chance, each made of the one before: the same in every run.
#[derive(Drop)]
struct Chance {
    last: u32,
}

impl Chance {
    fn below(&mut self, n: u16) -> u16
        requires { 0 < n }
        ensures { result < n }
    {
        self.last = self.last.wrapping_mul(1664525).wrapping_add(1013904223);
        (self.last / 65536) as u16 % n
    }

    // A place on the screen or about it; now and then the furthest that there is.
    fn place(&mut self) -> i16 {
        match self.below(80) {
            0 => i16::MIN,
            1 => i16::MAX,
            k => (k / 16) as i16 - 1,
        }
    }

    // A window, which may not be there, and who asks about it: most often its owner. There is no program 3.
    fn asked(&mut self, s: &State) -> (u8, u8) {
        let window = (self.below(13) / 3) as u8;
        let any = self.below(4) as u8;
        let owner = s.stack.window(window).map_or(any, |w| w.owner);
        if self.below(12) == 0 {
            (any, window)
        } else {
            (owner, window)
        }
    }

    fn patch(&mut self) -> Patch {
        Patch {
            x: self.below(2),
            y: self.below(2),
            wide: self.below(4),
            high: self.below(3),
        }
    }

    // A part of the source.
    fn part(&mut self, most: u16) -> Part
        requires { 0 < most }
    {
        Part {
            from: usize::from(self.below(16)),
            count: self.below(most),
        }
    }

    fn on_windows(&mut self, program: u8, window: u8) -> Event {
        match self.below(16) {
            0..=2 => Event::Make {
                program,
                x: self.place(),
                y: self.place(),
                wide: self.below(7),
                high: self.below(6) + 1,
            },
            3 => Event::Close { program, window },
            4..=7 => Event::Move {
                program,
                window,
                x: self.place(),
                y: self.place(),
            },
            8 | 9 => Event::Raise { program, window },
            _ => Event::Show {
                program,
                window,
                on: self.below(8) > 0,
            },
        }
    }

    fn on_pictures(&mut self, program: u8, window: u8) -> Event {
        match self.below(3) {
            0 => Event::Fill {
                program,
                window,
                patch: self.patch(),
                colour: u32::from(self.below(9)),
            },
            1 => Event::Put {
                program,
                window,
                x: self.below(2),
                y: self.below(3),
                colours: self.part(4),
            },
            _ => Event::Copy {
                program,
                window,
                patch: self.patch(),
                to_x: self.below(3),
                to_y: self.below(2),
            },
        }
    }

    fn by_person(&mut self, program: u8) -> Event {
        match self.below(8) {
            0 | 1 => Event::Offer {
                program,
                bytes: self.part(30),
            },
            2 | 3 => Event::Point {
                x: self.place(),
                y: self.place(),
            },
            4 | 5 => Event::Press {
                down: self.below(3) > 0,
            },
            6 => Event::Key {
                key: u32::from(self.below(60000)).wrapping_mul(70000),
            },
            _ => Event::Paste,
        }
    }

    fn event(&mut self, s: &State) -> Event {
        let (program, window) = self.asked(s);
        match self.below(8) {
            0..=2 => self.on_windows(program, window),
            3 | 4 => self.on_pictures(program, window),
            _ => self.by_person(program),
        }
    }
}

// How many events changed the screen, were answered by no, and were refused as bytes in fault.
#[derive(Drop)]
struct Tally {
    sent: usize,
    no: usize,
    faults: usize,
}

impl Tally {
    fn count(&mut self, out: Outcome, told: &[u8]) {
        self.sent = self.sent.saturating_add(usize::from(out.sent > 0));
        self.no = self.no.saturating_add(usize::from(told.get(1) == Some(&0)));
        self.faults = self
            .faults
            .saturating_add(usize::from(out.refusal.is_some()));
    }
}

// One event on both, with what is to be the same. A byte in fault is refused at its place, and nothing is sent or told.
fn on_both(
    rt: &impl Abort,
    plain: &mut Plain,
    served: &mut Served,
    call: &[u8],
) -> Result<Outcome, Fail> {
    let mut words = [0; 64];
    let out = served.call(call)?;
    match protocol::read(call, 0, plain.programs(), Kinds::all()) {
        Ok((e, end)) => {
            let used = plain.carry(call, e, &mut words, 0)?;
            assert!(rt; out.refusal.is_none());
            assert_eq!(rt; out.read, end);
            let wanted = words.get(..used).unwrap_or(&[]);
            same_words(rt, served.told(out), wanted, "told");
        }
        Err(fault) => {
            let place = fault.place as u32;
            assert!(rt; out.refusal == Some(Refusal::Fault { place }));
            assert!(rt; out.events == 0 && out.read == 0 && out.sent == 0 && out.words == 0);
        }
    }
    for (k, dot) in served.screen().iter().enumerate() {
        assert_eq!(rt; *dot, plain.dot(k));
    }
    Ok(out)
}

#[test]
fn the_server_shows_and_tells_what_the_desk_does(rt: HostRuntime) -> Result<(), Fail> {
    let mut chance = Chance { last: 2026 };
    let mut tally = Tally {
        sent: 0,
        no: 0,
        faults: 0,
    };
    let mut plain = Plain::new(rt.alloc(), SIZES)?;
    let mut served = Served::start(rt.alloc(), SIZES, 1)?;
    let mut call = [0; 64];
    for _ in 0..2000 {
        let e = chance.event(&plain.state);
        let n = protocol::write_event(e, SOURCE, &mut call, 0).unwrap_or(0);
        let bytes = call.get(..n).unwrap_or(&[]);
        let out = on_both(&rt, &mut plain, &mut served, bytes)?;
        tally.count(out, served.told(out));
    }
    assert!(rt; tally.sent >= 200, "{} changed the screen", tally.sent);
    assert!(rt; tally.no >= 200, "{} were answered by no", tally.no);
    assert!(rt; tally.faults >= 50, "{} were in fault", tally.faults);
    Ok(())
}
