// Regions by example. A box is written [left, top, right, below].
ghost use Rattle.std.specs.Prelude.{◌≤◌, length};

use super::*;
use std::process::Abort;
use std::test::Fail;

// What an operation makes of two regions. Boxes that are all zeros stand for none.
#[derive(Clone, Copy)]
struct Case {
    a: [[u16; 4]; 2],
    op: Op,
    b: [[u16; 4]; 2],
    want: [[u16; 4]; 4],
}

const NO: [u16; 4] = [0; 4];

const CASES: [Case; 14] = [
    // a plus
    Case {
        a: [[2, 0, 4, 6], NO],
        op: Op::Join,
        b: [[0, 2, 6, 4], NO],
        want: [[2, 0, 4, 2], [0, 2, 6, 4], [2, 4, 4, 6], NO],
    },
    // an L
    Case {
        a: [[0, 0, 2, 6], NO],
        op: Op::Join,
        b: [[0, 4, 6, 6], NO],
        want: [[0, 0, 2, 4], [0, 4, 6, 6], NO, NO],
    },
    // a frame with a hole, of two L
    Case {
        a: [[0, 0, 1, 4], [0, 4, 5, 5]],
        op: Op::Join,
        b: [[0, 0, 5, 1], [4, 1, 5, 5]],
        want: [[0, 0, 5, 1], [0, 1, 1, 4], [4, 1, 5, 4], [0, 4, 5, 5]],
    },
    // bands that merge
    Case {
        a: [[0, 0, 9, 3], NO],
        op: Op::Join,
        b: [[0, 3, 9, 6], NO],
        want: [[0, 0, 9, 6], NO, NO, NO],
    },
    // boxes that touch side by side, and at a corner
    Case {
        a: [[0, 0, 2, 2], NO],
        op: Op::Join,
        b: [[2, 0, 4, 2], NO],
        want: [[0, 0, 4, 2], NO, NO, NO],
    },
    Case {
        a: [[0, 0, 2, 2], NO],
        op: Op::Join,
        b: [[2, 2, 4, 4], NO],
        want: [[0, 0, 2, 2], [2, 2, 4, 4], NO, NO],
    },
    Case {
        a: [[0, 0, 2, 2], NO],
        op: Op::Meet,
        b: [[2, 2, 4, 4], NO],
        want: [NO; 4],
    },
    // a cut that leaves four boxes
    Case {
        a: [[0, 0, 9, 9], NO],
        op: Op::Cut,
        b: [[3, 3, 6, 6], NO],
        want: [[0, 0, 9, 3], [0, 3, 3, 6], [6, 3, 9, 6], [0, 6, 9, 9]],
    },
    // a meet whose bands merge once the rest is gone
    Case {
        a: [[0, 0, 4, 2], [0, 2, 6, 4]],
        op: Op::Meet,
        b: [[0, 1, 4, 9], NO],
        want: [[0, 1, 4, 4], NO, NO, NO],
    },
    // empty operands
    Case {
        a: [NO; 2],
        op: Op::Join,
        b: [NO; 2],
        want: [NO; 4],
    },
    Case {
        a: [[1, 1, 3, 3], NO],
        op: Op::Join,
        b: [NO; 2],
        want: [[1, 1, 3, 3], NO, NO, NO],
    },
    Case {
        a: [[1, 1, 3, 3], NO],
        op: Op::Meet,
        b: [NO; 2],
        want: [NO; 4],
    },
    Case {
        a: [[1, 1, 3, 3], NO],
        op: Op::Cut,
        b: [NO; 2],
        want: [[1, 1, 3, 3], NO, NO, NO],
    },
    Case {
        a: [NO; 2],
        op: Op::Cut,
        b: [[1, 1, 3, 3], NO],
        want: [NO; 4],
    },
];

fn rect([left, top, right, below]: [u16; 4]) -> Rect {
    Rect {
        left,
        top,
        right,
        below,
    }
}

// How many boxes come before the first that stands for none.
fn some(boxes: &[[u16; 4]]) -> usize
    ensures { result ≤ length boxes.now }
{
    boxes.iter().take_while(|b| b[2] != 0).count()
}

// Writes those boxes into words, as many as there is room for, and says how many words they take.
fn put_all(boxes: &[[u16; 4]], out: &mut [u32]) -> usize
    ensures { result ≤ length out.old }
{
    let n = some(boxes).min(out.len() / 2);
    for (i, b) in boxes[..n].iter().enumerate() {
        put_rect(out, i, rect(*b));
    }
    2 * n
}

// Whether the first n boxes of some words are these.
fn same(rt: &impl Abort, words: &[u32], n: usize, want: &[[u16; 4]]) {
    assert_eq!(rt; n, some(want));
    for (i, b) in want[..some(want)].iter().enumerate() {
        assert_eq!(rt; rect_at(words, i), rect(*b));
    }
}

fn holds_of(rt: &impl Abort, c: &Case) -> Result<(), Fail> {
    let mut left = [0u32; 4];
    let mut right = [0u32; 4];
    let mut out = [0u32; 32];
    let p = put_all(&c.a, &mut left);
    let q = put_all(&c.b, &mut right);
    let n = combine(&left[..p], &right[..q], c.op, &mut out).ok_or("none")?;
    same(rt, &out, n, &c.want);
    Ok(())
}

#[test]
fn table(rt: HostRuntime) -> Result<(), Fail> {
    for c in &CASES {
        holds_of(&rt, c)?;
    }
    Ok(())
}

// Writes the teeth of a comb, five columns wide and five apart, as many as there is room for.
fn put_comb(out: &mut [u32], teeth: u16) {
    for k in 0..teeth {
        let left = 10 * (k % 64) + 2;
        let i = usize::from(k);
        if i < out.len() / 2 {
            put_rect(out, i, rect([left, 0, left + 5, 100]));
        }
    }
}

// A screen cut by a comb of 64 teeth, and joined with it again.
#[test]
fn comb(rt: HostRuntime) -> Result<(), Fail> {
    let screen = words_of(rect([0, 0, 640, 480]));
    let mut teeth = [0u32; 128];
    let mut rest = [0u32; 512];
    let mut back = [0u32; 512];
    put_comb(&mut teeth, 64);
    let n = combine(&screen, &teeth, Op::Cut, &mut rest).ok_or("none")?;
    assert_eq!(rt; n, 66);
    assert_eq!(rt; count(&rest[..132]), Some(640 * 480 - 64 * 500));
    let m = combine(&rest[..132], &teeth, Op::Join, &mut back).ok_or("none")?;
    same(&rt, &back, m, &[[0, 0, 640, 480]]);
    Ok(())
}

// A region of two bands, moved; off the screen on the right the two are one.
#[test]
fn moves(rt: HostRuntime) -> Result<(), Fail> {
    let mut a = [0u32; 4];
    let mut out = [0u32; 32];
    let p = put_all(&[[0, 0, 4, 2], [0, 2, 6, 4]], &mut a);
    let n = shift(&a[..p], 3, -1, 20, 20, &mut out).ok_or("none")?;
    same(&rt, &out, n, &[[3, 0, 7, 1], [3, 1, 9, 3]]);
    let m = shift(&a[..p], 17, 0, 20, 20, &mut out).ok_or("none")?;
    same(&rt, &out, m, &[[17, 0, 20, 4]]);
    Ok(())
}

// Boxes of a band that touch are no region, and three boxes are too many for two.
#[test]
fn refusals(rt: HostRuntime) {
    let mut a = [0u32; 6];
    let mut out = [0u32; 4];
    let p = put_all(&[[0, 0, 2, 2], [2, 0, 4, 2]], &mut a);
    assert!(rt; !is_region(&a[..p]) && !is_empty(&a[..p]));
    assert!(rt; contains(&a[..p], 3, 1) && !contains(&a[..p], 4, 1));
    assert_eq!(rt; combine(&a[..p], &[], Op::Join, &mut out), None);
    let q = put_all(&[[0, 0, 2, 2], [3, 0, 4, 2], [5, 0, 6, 2]], &mut a);
    assert_eq!(rt; combine(&a[..q], &[], Op::Join, &mut out), None);
}
