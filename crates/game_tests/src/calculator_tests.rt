//! Worked lines.

use crate::asserts::none_wrong;
use game_calc::{CalcError, CalcFault, answer};
use std::alloc::{AllocError, Global};

/// An expression and its answer.
type Answered = (&'static [u8], &'static [u8]);

/// Whether an expression has the answer.
fn is_answer(alloc: Global, line: &[u8], want: &[u8]) -> bool {
    match answer(alloc, line, 500) {
        Ok(text) => text.as_slice() == want,
        Err(_error) => false,
    }
}

/// The first of the expressions with another answer.
fn wrong_answer(alloc: Global, rows: &[Answered]) -> Option<usize> {
    for (at, row) in rows.iter().enumerate() {
        if !is_answer(alloc, row.0, row.1) {
            return Some(at);
        }
    }
    None
}

/// Expressions and the values that are written of them.
static VALUES: [Answered; 7] = [
    (
        b"^ + *",
        b"value {*,0|0}\nstops 0 0\nmean 0\ntemperature 0\nleft 0:0\nright 0:0\n",
    ),
    (
        b"+-1 + +-1",
        b"value 0\nstops 0 0\nmean 0\ntemperature none\nleft 0:0\nright 0:0\n",
    ),
    (
        b"2 + +-1",
        b"value {3|1}\nstops 3 1\nmean 2\ntemperature 1\nleft 0:3 1:2\nright 0:1 1:2\n",
    ),
    (
        b"  - ( 1/2 - 3 )  ",
        b"value 5/2\nstops 5/2 5/2\nmean 5/2\ntemperature none\nleft 0:5/2\nright 0:5/2\n",
    ),
    (
        b"*3 + *5",
        b"value *6\nstops 0 0\nmean 0\ntemperature 0\nleft 0:0\nright 0:0\n",
    ),
    // two and four times {2|{1|*}}
    (
        b"{2|{1|*}} + {2|{1|*}}",
        b"value {3|{2|2}}\nstops 3 2\nmean 5/2\ntemperature 1/2\nleft 0:3 1/2:5/2\nright 0:2 1/2:5/2\n",
    ),
    (
        b"{2|{1|*}} + {2|{1|*}} + {2|{1|*}} + {2|{1|*}}",
        b"value {5|5}\nstops 5 5\nmean 5\ntemperature 0\nleft 0:5\nright 0:5\n",
    ),
];

#[test]
fn values(rt: HostRuntime) {
    none_wrong(&rt, wrong_answer(rt.alloc(), &VALUES));
}

/// Expressions and the orders of their games.
static ORDERS: [Answered; 41] = [
    (b"^ ? 0", b"order greater\n"),
    (b"v ? 0", b"order less\n"),
    (b"* ? 0", b"order confused\n"),
    (b"^ ? *", b"order confused\n"),
    (b"^ ? ^", b"order equal\n"),
    (b"* ? 1", b"order less\n"),
    (b"2 ? {1|*}", b"order greater\n"),
    (b"* ? {1|*}", b"order confused\n"),
    (b"^ + ^ ? *", b"order greater\n"),
    (b"{1|*} - 1 ? 0", b"order confused\n"),
    (b"1/2 + 1/2 ? 1", b"order equal\n"),
    (b"{0|{0|-1}} ? ^", b"order less\n"),
    (b"^ + * ? {*,0|0}", b"order equal\n"),
    (b"^ + ^ + * ? {0|^}", b"order equal\n"),
    (b"1 + {0|-1} ? {1|0}", b"order equal\n"),
    (b"{1|*} - {1|*} ? 0", b"order equal\n"),
    (b"{2|{1|*}} - {2|{1|*}} ? 0", b"order equal\n"),
    (
        b"{{2|0},{3|-1}|-5} - {{2|0},{3|-1}|-5} ? 0",
        b"order equal\n",
    ),
    (b"- ( ^ + * ) ? v + *", b"order equal\n"),
    (b"- 1 ? -1", b"order equal\n"),
    (b"- * ? *", b"order equal\n"),
    (b"- {1|*} ? {*|-1}", b"order equal\n"),
    (b"- {0|{0|-3}} ? {{3|0}|0}", b"order equal\n"),
    (b"- {3|0} ? {0|-3}", b"order equal\n"),
    (b"- +-3 ? +-3", b"order equal\n"),
    (b"5 - ( 3 - 1 ) ? 3", b"order equal\n"),
    (b"5 - 3 - 1 ? 1", b"order equal\n"),
    (b"( ( ( * ) ) ) ? *", b"order equal\n"),
    (b"* + * ? 0", b"order equal\n"),
    (b"1 - 1 ? 0", b"order equal\n"),
    (b"{2|0} - {2|0} ? 0", b"order equal\n"),
    (b"{4|0} - {4|0} ? 0", b"order equal\n"),
    (b"{0|-4} - {0|-4} ? 0", b"order equal\n"),
    (b"{{*|-1}|-2} - {{*|-1}|-2} ? 0", b"order equal\n"),
    (b"*2 + * ? *3", b"order equal\n"),
    (b"*4 + *5 ? *", b"order equal\n"),
    (b"*6 + *3 ? *5", b"order equal\n"),
    (b"*7 + *8 ? *15", b"order equal\n"),
    (b"*9 + *15 ? *6", b"order equal\n"),
    (b"*12 + *10 ? *6", b"order equal\n"),
    (b"*14 - *14 ? 0", b"order equal\n"),
];

/// Identities and orders of the field (Siegel, Combinatorial Game Theory), nim addition among them.
#[test]
fn orders(rt: HostRuntime) {
    none_wrong(&rt, wrong_answer(rt.alloc(), &ORDERS));
}

/// An expression, the most parts of a form, and why it is refused.
static REFUSALS: [(&[u8], u32, CalcError); 24] = [
    (b"", 500, CalcError::Fault(CalcFault::CutShort)),
    (b"* +", 500, CalcError::Fault(CalcFault::CutShort)),
    (b"1 ? ", 500, CalcError::Fault(CalcFault::CutShort)),
    (b"( 1", 500, CalcError::Fault(CalcFault::CutShort)),
    (b"{0|", 500, CalcError::Fault(CalcFault::CutShort)),
    (b"{0| 0}", 500, CalcError::Fault(CalcFault::Byte(3))),
    (b"{0|0}x", 500, CalcError::Fault(CalcFault::Byte(5))),
    (b") 1", 500, CalcError::Fault(CalcFault::Byte(0))),
    (b"1 )", 500, CalcError::Fault(CalcFault::Byte(2))),
    (b"1 2", 500, CalcError::Fault(CalcFault::Byte(2))),
    (b"( 1 ? 2 )", 500, CalcError::Fault(CalcFault::Byte(4))),
    (b"1 ? 2 ? 3", 500, CalcError::Fault(CalcFault::Byte(6))),
    (b"1 + + 2", 500, CalcError::Fault(CalcFault::Byte(4))),
    (b"- - 1", 500, CalcError::Fault(CalcFault::Byte(2))),
    (b"(3)", 500, CalcError::Fault(CalcFault::Byte(0))),
    (b"1 + 2/4", 500, CalcError::Fault(CalcFault::Number(4))),
    (b"1 + *1", 500, CalcError::Fault(CalcFault::Number(5))),
    (b"{1|*}", 1, CalcError::Limit),
    (b"*501x", 500, CalcError::Limit),
    // the answer is 0, and the table has the nimber of 3
    (b"*2 - *2", 2, CalcError::Limit),
    (b"*2 - *2 +", 2, CalcError::Fault(CalcFault::CutShort)),
    (b"*2 - *2 ? 0", 2, CalcError::Limit),
    (b"1152921504606846975 + 1", 500, CalcError::Limit),
    (
        b"1152921504606846975 + 1 ? )",
        500,
        CalcError::Fault(CalcFault::Byte(26)),
    ),
];

/// Whether an expression is refused so.
fn is_refused(alloc: Global, line: &[u8], parts: u32, want: CalcError) -> bool {
    match answer(alloc, line, parts) {
        Ok(_text) => false,
        Err(error) => error == want,
    }
}

/// The first of the expressions that isn't refused so.
fn wrong_refusal(alloc: Global) -> Option<usize> {
    for (at, row) in REFUSALS.iter().enumerate() {
        if !is_refused(alloc, row.0, row.1, row.2) {
            return Some(at);
        }
    }
    None
}

#[test]
fn refusals(rt: HostRuntime) {
    none_wrong(&rt, wrong_refusal(rt.alloc()));
}

/// What is written of 1.
const VALUE_OF_ONE: &[u8] = b"value 1\nstops 1 1\nmean 1\ntemperature none\nleft 0:1\nright 0:1\n";

/// Appends a word so many times.
fn append(line: &mut Vec<u8>, word: &[u8], count: usize) -> Result<(), AllocError> {
    for _ in 0..count {
        line.extend_from_slice(word)?;
    }
    Ok(())
}

/// Appends so many parentheses around 1.
fn nest(line: &mut Vec<u8>, depth: usize) -> Result<(), AllocError> {
    append(line, b"( ", depth)?;
    append(line, b"1", 1)?;
    append(line, b" )", depth)
}

/// Whether so many parentheses are answered.
fn is_nested(alloc: Global, line: &mut Vec<u8>, depth: usize) -> bool {
    nest(line, depth) == Ok(()) && is_answer(alloc, line, VALUE_OF_ONE)
}

/// Whether so many parentheses are too deep.
fn is_too_deep(alloc: Global, line: &mut Vec<u8>, depth: usize) -> bool {
    nest(line, depth) == Ok(()) && is_refused(alloc, line, 500, CalcError::Fault(CalcFault::Deep))
}

#[test]
fn depths(rt: HostRuntime) {
    assert!(rt; is_nested(rt.alloc(), &mut Vec::new(rt.alloc()), 1000));
    assert!(rt; is_too_deep(rt.alloc(), &mut Vec::new(rt.alloc()), 1001));
}
