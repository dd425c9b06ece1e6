//! The calculator of games.

use crate::asserts::none_wrong;
use crate::endings::Ends;
use crate::runs::{Failing, FailingRow, NOTHING_FAILS, are_right, first_failing_wrong};
use game_calc::CalcFault;
use std::alloc::Global;

const UP_AND_STAR: &str = "value {*,0|0}\nstops 0 0\nmean 0\ntemperature 0\nleft 0:0\nright 0:0\n";

const ZERO: &str = "value 0\nstops 0 0\nmean 0\ntemperature none\nleft 0:0\nright 0:0\n";

/// The calls of the outside that the calculator never makes.
const NOTHING_READ: Failing = Failing {
    load: 0,
    read: 0,
    ..NOTHING_FAILS
};

/// Expressions and what is wrong in them.
static EXPRESSIONS: [FailingRow; 12] = [
    (
        "calc~^ + *",
        b"",
        500,
        NOTHING_READ,
        Ends::Done,
        UP_AND_STAR,
    ),
    ("calc~+-1 + +-1", b"", 500, NOTHING_READ, Ends::Done, ZERO),
    (
        "calc~^ ? 0",
        b"",
        500,
        NOTHING_READ,
        Ends::Done,
        "order greater\n",
    ),
    (
        "calc~{1|*} - 1 ? 0",
        b"",
        500,
        NOTHING_READ,
        Ends::Done,
        "order confused\n",
    ),
    (
        "calc~* +",
        b"",
        500,
        NOTHING_READ,
        Ends::BadExpression(CalcFault::CutShort),
        "fault expression cut short\n",
    ),
    (
        "calc~{0|0}x",
        b"",
        500,
        NOTHING_READ,
        Ends::BadExpression(CalcFault::Byte(5)),
        "fault expression bad byte 5\n",
    ),
    (
        "calc~) 1",
        b"",
        500,
        NOTHING_READ,
        Ends::BadExpression(CalcFault::Byte(0)),
        "fault expression bad byte 0\n",
    ),
    (
        "calc~1 + 2/4",
        b"",
        500,
        NOTHING_READ,
        Ends::BadExpression(CalcFault::Number(4)),
        "fault expression bad number 4\n",
    ),
    (
        "calc~{1|*}~--parts~1",
        b"",
        500,
        NOTHING_READ,
        Ends::CalcLimit,
        "fault calc limit\n",
    ),
    (
        "calc~-~--parts~1",
        b"",
        500,
        NOTHING_READ,
        Ends::BadExpression(CalcFault::CutShort),
        "fault expression cut short\n",
    ),
    (
        "calc~",
        b"",
        500,
        NOTHING_READ,
        Ends::Usage,
        "fault usage\n",
    ),
    (
        "calc~0~--positions~5",
        b"",
        500,
        NOTHING_READ,
        Ends::Usage,
        "fault usage\n",
    ),
];

#[test]
fn answers_expressions(rt: HostRuntime) {
    none_wrong(&rt, first_failing_wrong(rt.alloc(), &EXPRESSIONS));
}

/// Answers that the sink has no room for.
static CUT_ANSWERS: [FailingRow; 3] = [
    (
        "calc~^ ? 0",
        b"",
        9,
        NOTHING_FAILS,
        Ends::CannotWrite,
        "order gre",
    ),
    (
        "calc~* +",
        b"",
        5,
        NOTHING_FAILS,
        Ends::CannotWrite,
        "fault",
    ),
    ("calc~0", b"", 0, NOTHING_FAILS, Ends::CannotWrite, ""),
];

#[test]
fn a_failed_write_leaves_a_front_part(rt: HostRuntime) {
    none_wrong(&rt, first_failing_wrong(rt.alloc(), &CUT_ANSWERS));
}

/// Whether an expression is told to be nested too deep.
fn is_too_deep(alloc: Global, expression: &str) -> bool {
    let words = ["calc", expression];
    let ends = Ends::BadExpression(CalcFault::Deep);
    let text = b"fault expression too deep\n";
    are_right(alloc, &words, b"", 7, 500, NOTHING_FAILS, ends, text)
}

/// Whether so many open parentheses are.
fn are_too_deep(alloc: Global, count: usize) -> bool {
    match "( ".repeat(alloc, count) {
        Ok(deep) => is_too_deep(alloc, &deep),
        Err(_error) => false,
    }
}

#[test]
fn nothing_is_nested_too_deep(rt: HostRuntime) {
    assert!(rt; are_too_deep(rt.alloc(), 1001));
}
