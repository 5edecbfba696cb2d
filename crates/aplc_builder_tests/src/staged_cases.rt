//! Arguments of functions on values in memory, and what they give, worked out by hand.
//! It must not take a result from a run.

use aplc_scalar::{FaultKind, Kind, ScalarFn};

/// The lengths and the elements of an array of numbers or of characters.
pub(crate) enum Value<'a> {
    Num(&'a [i64], &'a [i64]),
    Char(&'a [i64], &'a [i64]),
}

impl<'a> Value<'a> {
    pub(crate) fn kind(&self) -> Kind {
        match self {
            Value::Num(_, _) => Kind::Num,
            Value::Char(_, _) => Kind::Char,
        }
    }

    pub(crate) fn shape(&self) -> &'a [i64] {
        match self {
            Value::Num(shape, _) | Value::Char(shape, _) => shape,
        }
    }

    pub(crate) fn cells(&self) -> &'a [i64] {
        match self {
            Value::Num(_, cells) | Value::Char(_, cells) => cells,
        }
    }
}

/// The text of a result and how many cells it has in a buffer, or its fault.
pub(crate) enum Outcome<'a> {
    Shown(&'a str, u32),
    Faulted(FaultKind),
}

/// A function of two arguments, one of one argument, and a copy.
pub(crate) enum Making<'a> {
    Dyadic(ScalarFn, Value<'a>, Value<'a>),
    Monadic(ScalarFn, Value<'a>),
    Copied(Value<'a>),
}

/// What is made, and what that comes to.
pub(crate) struct Case<'a> {
    pub(crate) making: Making<'a>,
    pub(crate) outcome: Outcome<'a>,
}

/// Shapes that are equal.
pub(crate) const EQUAL_SHAPES: [Case<'static>; 9] = [
    Case {
        making: Making::Dyadic(ScalarFn::Sub, Value::Num(&[], &[3]), Value::Num(&[], &[5])),
        outcome: Outcome::Shown("¯2\n", 0),
    },
    Case {
        making: Making::Dyadic(
            ScalarFn::Less,
            Value::Num(&[2], &[9223372036854775807, 1]),
            Value::Num(&[2], &[2, -1]),
        ),
        outcome: Outcome::Shown("0 0\n", 2),
    },
    Case {
        making: Making::Dyadic(
            ScalarFn::Sub,
            Value::Num(&[3], &[10, 20, 30]),
            Value::Num(&[3], &[1, 2, 3]),
        ),
        outcome: Outcome::Shown("9 18 27\n", 3),
    },
    Case {
        making: Making::Dyadic(
            ScalarFn::Max,
            Value::Num(&[2, 2], &[1, 0, 0, 1]),
            Value::Num(&[2, 2], &[1, 0, 0, 1]),
        ),
        outcome: Outcome::Shown("1 0\n0 1\n", 4),
    },
    Case {
        making: Making::Dyadic(
            ScalarFn::Sub,
            Value::Num(&[2, 3], &[10, 20, 30, 40, 50, 60]),
            Value::Num(&[2, 3], &[1, 2, 3, 4, 5, 6]),
        ),
        outcome: Outcome::Shown(" 9 18 27\n36 45 54\n", 6),
    },
    Case {
        making: Making::Dyadic(
            ScalarFn::Nor,
            Value::Num(&[2, 2, 2], &[0, 1, 1, 0, 1, 1, 0, 1]),
            Value::Num(&[2, 2, 2], &[0, 1, 1, 0, 1, 1, 0, 1]),
        ),
        outcome: Outcome::Shown("1 0\n0 1\n\n0 0\n1 0\n", 8),
    },
    Case {
        making: Making::Dyadic(
            ScalarFn::Greater,
            Value::Num(&[2, 1, 2], &[1, 2, 3, 4]),
            Value::Num(&[2, 1, 2], &[1, 2, 3, 4]),
        ),
        outcome: Outcome::Shown("0 0\n\n0 0\n", 4),
    },
    Case {
        making: Making::Dyadic(
            ScalarFn::Min,
            Value::Num(&[0, 3], &[]),
            Value::Num(&[0, 3], &[]),
        ),
        outcome: Outcome::Shown("", 0),
    },
    Case {
        making: Making::Dyadic(
            ScalarFn::Equal,
            Value::Char(&[3], &[97, 98, 99]),
            Value::Char(&[3], &[97, 120, 99]),
        ),
        outcome: Outcome::Shown("1 0 1\n", 3),
    },
];

/// A scalar beside an array, on each side.
pub(crate) const SCALAR_BESIDE: [Case<'static>; 13] = [
    Case {
        making: Making::Dyadic(
            ScalarFn::Sub,
            Value::Num(&[], &[10]),
            Value::Num(&[3], &[1, 2, 3]),
        ),
        outcome: Outcome::Shown("9 8 7\n", 3),
    },
    Case {
        making: Making::Dyadic(
            ScalarFn::Sub,
            Value::Num(&[3], &[1, 2, 3]),
            Value::Num(&[], &[10]),
        ),
        outcome: Outcome::Shown("¯9 ¯8 ¯7\n", 3),
    },
    Case {
        making: Making::Dyadic(
            ScalarFn::Mul,
            Value::Num(&[], &[3]),
            Value::Num(&[1, 3], &[1, 2, 3]),
        ),
        outcome: Outcome::Shown("3 6 9\n", 3),
    },
    Case {
        making: Making::Dyadic(
            ScalarFn::Residue,
            Value::Num(&[], &[0]),
            Value::Num(&[2, 3], &[1, 2, 3, 4, 5, 6]),
        ),
        outcome: Outcome::Shown("1 2 3\n4 5 6\n", 6),
    },
    Case {
        making: Making::Dyadic(
            ScalarFn::Residue,
            Value::Num(&[2, 2], &[1, 0, 0, 1]),
            Value::Num(&[], &[2]),
        ),
        outcome: Outcome::Shown("0 2\n2 0\n", 4),
    },
    Case {
        making: Making::Dyadic(
            ScalarFn::And,
            Value::Num(&[], &[0]),
            Value::Num(&[2, 2, 2], &[0, 1, 1, 0, 1, 1, 0, 1]),
        ),
        outcome: Outcome::Shown("0 0\n0 0\n\n0 0\n0 0\n", 8),
    },
    Case {
        making: Making::Dyadic(
            ScalarFn::GreaterEq,
            Value::Num(&[2, 1, 2], &[1, 2, 3, 4]),
            Value::Num(&[], &[-9223372036854775807]),
        ),
        outcome: Outcome::Shown("1 1\n\n1 1\n", 4),
    },
    Case {
        making: Making::Dyadic(ScalarFn::Min, Value::Num(&[1], &[1]), Value::Num(&[], &[3])),
        outcome: Outcome::Shown("1\n", 1),
    },
    Case {
        making: Making::Dyadic(
            ScalarFn::Mul,
            Value::Num(&[], &[2147483648]),
            Value::Num(&[0, 3], &[]),
        ),
        outcome: Outcome::Shown("", 0),
    },
    Case {
        making: Making::Dyadic(ScalarFn::Or, Value::Num(&[0], &[]), Value::Num(&[], &[-1])),
        outcome: Outcome::Shown("\n", 0),
    },
    Case {
        making: Making::Dyadic(
            ScalarFn::Equal,
            Value::Num(&[2, 1, 2], &[1, 2, 3, 4]),
            Value::Char(&[], &[97]),
        ),
        outcome: Outcome::Shown("0 0\n\n0 0\n", 4),
    },
    Case {
        making: Making::Dyadic(
            ScalarFn::NotEqual,
            Value::Num(&[2, 3], &[1, 2, 3, 4, 5, 6]),
            Value::Char(&[], &[97]),
        ),
        outcome: Outcome::Shown("1 1 1\n1 1 1\n", 6),
    },
    Case {
        making: Making::Dyadic(
            ScalarFn::NotEqual,
            Value::Char(&[], &[97]),
            Value::Num(&[], &[97]),
        ),
        outcome: Outcome::Shown("1\n", 0),
    },
];

/// An array of one element beside others of its rank, on each side.
pub(crate) const ONE_ELEMENT: [Case<'static>; 12] = [
    Case {
        making: Making::Dyadic(
            ScalarFn::Sub,
            Value::Num(&[1], &[5]),
            Value::Num(&[3], &[1, 2, 3]),
        ),
        outcome: Outcome::Shown("4 3 2\n", 3),
    },
    Case {
        making: Making::Dyadic(
            ScalarFn::Sub,
            Value::Num(&[3], &[1, 2, 3]),
            Value::Num(&[1], &[5]),
        ),
        outcome: Outcome::Shown("¯4 ¯3 ¯2\n", 3),
    },
    Case {
        making: Making::Dyadic(
            ScalarFn::Max,
            Value::Num(&[2], &[1, 0]),
            Value::Num(&[1], &[5]),
        ),
        outcome: Outcome::Shown("5 5\n", 2),
    },
    Case {
        making: Making::Dyadic(
            ScalarFn::Sub,
            Value::Num(&[1, 1], &[7]),
            Value::Num(&[2, 3], &[1, 2, 3, 4, 5, 6]),
        ),
        outcome: Outcome::Shown("6 5 4\n3 2 1\n", 6),
    },
    Case {
        making: Making::Dyadic(
            ScalarFn::Greater,
            Value::Num(&[2, 3], &[1, 2, 3, 4, 5, 6]),
            Value::Num(&[1, 1], &[7]),
        ),
        outcome: Outcome::Shown("0 0 0\n0 0 0\n", 6),
    },
    Case {
        making: Making::Dyadic(
            ScalarFn::Add,
            Value::Num(&[1, 1, 1], &[1]),
            Value::Num(&[2, 1, 2], &[1, 2, 3, 4]),
        ),
        outcome: Outcome::Shown("2 3\n\n4 5\n", 4),
    },
    Case {
        making: Making::Dyadic(
            ScalarFn::Sub,
            Value::Num(&[2, 2, 2], &[0, 1, 1, 0, 1, 1, 0, 1]),
            Value::Num(&[1, 1, 1], &[1]),
        ),
        outcome: Outcome::Shown("¯1  0\n 0 ¯1\n\n 0  0\n¯1  0\n", 8),
    },
    Case {
        making: Making::Dyadic(
            ScalarFn::Sub,
            Value::Num(&[1, 1, 1], &[1]),
            Value::Num(&[1, 1, 1], &[1]),
        ),
        outcome: Outcome::Shown("0\n", 1),
    },
    Case {
        making: Making::Dyadic(
            ScalarFn::Less,
            Value::Num(&[0], &[]),
            Value::Num(&[1], &[5]),
        ),
        outcome: Outcome::Shown("\n", 0),
    },
    Case {
        making: Making::Dyadic(
            ScalarFn::NotEqual,
            Value::Char(&[0], &[]),
            Value::Char(&[1], &[98]),
        ),
        outcome: Outcome::Shown("\n", 0),
    },
    Case {
        making: Making::Dyadic(
            ScalarFn::Add,
            Value::Num(&[0, 3], &[]),
            Value::Num(&[1, 1], &[7]),
        ),
        outcome: Outcome::Shown("", 0),
    },
    Case {
        making: Making::Dyadic(
            ScalarFn::Nand,
            Value::Num(&[1, 1], &[7]),
            Value::Num(&[2, 0], &[]),
        ),
        outcome: Outcome::Shown("", 0),
    },
];

/// Shapes that do not conform: LENGTH, whatever the elements would give.
pub(crate) const OTHER_LENGTHS: [Case<'static>; 9] = [
    Case {
        making: Making::Dyadic(
            ScalarFn::Add,
            Value::Num(&[0], &[]),
            Value::Num(&[2], &[2, 3]),
        ),
        outcome: Outcome::Faulted(FaultKind::Length),
    },
    Case {
        making: Making::Dyadic(
            ScalarFn::And,
            Value::Num(&[2], &[2, -1]),
            Value::Num(&[3], &[2, 2, 2]),
        ),
        outcome: Outcome::Faulted(FaultKind::Length),
    },
    Case {
        making: Making::Dyadic(
            ScalarFn::Or,
            Value::Num(&[2], &[2, 3]),
            Value::Num(&[0], &[]),
        ),
        outcome: Outcome::Faulted(FaultKind::Length),
    },
    Case {
        making: Making::Dyadic(
            ScalarFn::And,
            Value::Num(&[0, 3], &[]),
            Value::Num(&[2, 0], &[]),
        ),
        outcome: Outcome::Faulted(FaultKind::Length),
    },
    Case {
        making: Making::Dyadic(
            ScalarFn::Nand,
            Value::Num(&[1, 3], &[1, 2, 3]),
            Value::Num(&[2, 2], &[1, 2, 3, 4]),
        ),
        outcome: Outcome::Faulted(FaultKind::Length),
    },
    Case {
        making: Making::Dyadic(
            ScalarFn::Add,
            Value::Num(&[1, 3], &[1, 2, 3]),
            Value::Num(&[3, 1], &[1, 2, 3]),
        ),
        outcome: Outcome::Faulted(FaultKind::Length),
    },
    Case {
        making: Making::Dyadic(
            ScalarFn::Mul,
            Value::Num(&[2, 1, 2], &[1, 2, 3, 4]),
            Value::Num(&[2, 2, 2], &[0, 1, 1, 0, 1, 1, 0, 1]),
        ),
        outcome: Outcome::Faulted(FaultKind::Length),
    },
    Case {
        making: Making::Dyadic(
            ScalarFn::Equal,
            Value::Num(&[1, 3], &[1, 2, 3]),
            Value::Char(&[2, 2], &[119, 120, 121, 122]),
        ),
        outcome: Outcome::Faulted(FaultKind::Length),
    },
    Case {
        making: Making::Dyadic(
            ScalarFn::NotEqual,
            Value::Char(&[3], &[97, 98, 99]),
            Value::Char(&[0], &[]),
        ),
        outcome: Outcome::Faulted(FaultKind::Length),
    },
];

/// An element that faults: the first, one in the middle, the last.
pub(crate) const FAULTY: [Case<'static>; 10] = [
    Case {
        making: Making::Dyadic(
            ScalarFn::And,
            Value::Num(&[3], &[2, 1, 1]),
            Value::Num(&[3], &[1, 1, 1]),
        ),
        outcome: Outcome::Faulted(FaultKind::Domain),
    },
    Case {
        making: Making::Dyadic(
            ScalarFn::And,
            Value::Num(&[3], &[1, 1, 1]),
            Value::Num(&[3], &[1, 2, 1]),
        ),
        outcome: Outcome::Faulted(FaultKind::Domain),
    },
    Case {
        making: Making::Dyadic(
            ScalarFn::And,
            Value::Num(&[3], &[1, 1, 2]),
            Value::Num(&[3], &[1, 1, 1]),
        ),
        outcome: Outcome::Faulted(FaultKind::Domain),
    },
    Case {
        making: Making::Dyadic(
            ScalarFn::Or,
            Value::Num(&[2, 2], &[2, 0, 0, 0]),
            Value::Num(&[2, 2], &[0, 0, 0, 0]),
        ),
        outcome: Outcome::Faulted(FaultKind::Domain),
    },
    Case {
        making: Making::Dyadic(
            ScalarFn::Or,
            Value::Num(&[2, 2, 2], &[0, 0, 0, 0, 0, 0, 0, 0]),
            Value::Num(&[2, 2, 2], &[0, 0, 0, 0, 0, 0, 0, 2]),
        ),
        outcome: Outcome::Faulted(FaultKind::Domain),
    },
    Case {
        making: Making::Dyadic(
            ScalarFn::Add,
            Value::Num(&[2], &[9223372036854775807, 1]),
            Value::Num(&[2], &[9223372036854775807, 1]),
        ),
        outcome: Outcome::Faulted(FaultKind::Limit),
    },
    Case {
        making: Making::Dyadic(
            ScalarFn::Mul,
            Value::Num(&[], &[9223372036854775807]),
            Value::Num(&[2, 3], &[1, 2, 3, 4, 5, 6]),
        ),
        outcome: Outcome::Faulted(FaultKind::Limit),
    },
    Case {
        making: Making::Dyadic(
            ScalarFn::Nand,
            Value::Num(&[2], &[2, -1]),
            Value::Num(&[], &[2147483648]),
        ),
        outcome: Outcome::Faulted(FaultKind::Domain),
    },
    Case {
        making: Making::Dyadic(
            ScalarFn::Sub,
            Value::Num(&[], &[-9223372036854775807]),
            Value::Num(&[1], &[5]),
        ),
        outcome: Outcome::Faulted(FaultKind::Limit),
    },
    Case {
        making: Making::Dyadic(ScalarFn::Nor, Value::Num(&[], &[1]), Value::Num(&[], &[-1])),
        outcome: Outcome::Faulted(FaultKind::Domain),
    },
];

/// Functions of one argument.
pub(crate) const MONADS: [Case<'static>; 14] = [
    Case {
        making: Making::Monadic(ScalarFn::Sub, Value::Num(&[], &[9223372036854775807])),
        outcome: Outcome::Shown("¯9223372036854775807\n", 0),
    },
    Case {
        making: Making::Monadic(ScalarFn::Sub, Value::Num(&[2, 2], &[1, 2, 3, 4])),
        outcome: Outcome::Shown("¯1 ¯2\n¯3 ¯4\n", 4),
    },
    Case {
        making: Making::Monadic(ScalarFn::Sub, Value::Num(&[2, 1, 2], &[1, 2, 3, 4])),
        outcome: Outcome::Shown("¯1 ¯2\n\n¯3 ¯4\n", 4),
    },
    Case {
        making: Making::Monadic(ScalarFn::Mul, Value::Num(&[3], &[2147483647, 2, 1])),
        outcome: Outcome::Shown("1 1 1\n", 3),
    },
    Case {
        making: Making::Monadic(ScalarFn::Residue, Value::Num(&[3], &[-1, 2, 0])),
        outcome: Outcome::Shown("1 2 0\n", 3),
    },
    Case {
        making: Making::Monadic(ScalarFn::Not, Value::Num(&[1], &[1])),
        outcome: Outcome::Shown("0\n", 1),
    },
    Case {
        making: Making::Monadic(ScalarFn::Add, Value::Num(&[0], &[])),
        outcome: Outcome::Shown("\n", 0),
    },
    Case {
        making: Making::Monadic(ScalarFn::Sub, Value::Num(&[0, 3], &[])),
        outcome: Outcome::Shown("", 0),
    },
    Case {
        making: Making::Monadic(ScalarFn::Not, Value::Num(&[2, 0], &[])),
        outcome: Outcome::Shown("", 0),
    },
    Case {
        making: Making::Monadic(ScalarFn::Not, Value::Num(&[], &[-9223372036854775807])),
        outcome: Outcome::Faulted(FaultKind::Domain),
    },
    Case {
        making: Making::Monadic(ScalarFn::Not, Value::Num(&[3], &[2, 1, 1])),
        outcome: Outcome::Faulted(FaultKind::Domain),
    },
    Case {
        making: Making::Monadic(ScalarFn::Not, Value::Num(&[3], &[1, 2, 1])),
        outcome: Outcome::Faulted(FaultKind::Domain),
    },
    Case {
        making: Making::Monadic(ScalarFn::Not, Value::Num(&[3], &[0, 0, 2])),
        outcome: Outcome::Faulted(FaultKind::Domain),
    },
    Case {
        making: Making::Monadic(ScalarFn::Not, Value::Num(&[2, 1, 2], &[1, 2, 3, 4])),
        outcome: Outcome::Faulted(FaultKind::Domain),
    },
];

/// Copies.
pub(crate) const COPIES: [Case<'static>; 7] = [
    Case {
        making: Making::Copied(Value::Num(&[], &[-7])),
        outcome: Outcome::Shown("¯7\n", 0),
    },
    Case {
        making: Making::Copied(Value::Num(&[3], &[1, -2, 3])),
        outcome: Outcome::Shown("1 ¯2 3\n", 3),
    },
    Case {
        making: Making::Copied(Value::Num(&[2, 2], &[1, -10, 100, 5])),
        outcome: Outcome::Shown("  1 ¯10\n100   5\n", 4),
    },
    Case {
        making: Making::Copied(Value::Num(&[2, 0], &[])),
        outcome: Outcome::Shown("", 0),
    },
    Case {
        making: Making::Copied(Value::Char(&[], &[97])),
        outcome: Outcome::Shown("a\n", 0),
    },
    Case {
        making: Making::Copied(Value::Char(&[2, 2], &[119, 120, 121, 122])),
        outcome: Outcome::Shown("wx\nyz\n", 4),
    },
    Case {
        making: Making::Copied(Value::Char(&[2, 2, 2], &[97, 98, 99, 100, 101, 102, 103, 104])),
        outcome: Outcome::Shown("ab\ncd\n\nef\ngh\n", 8),
    },
];

/// All of them.
pub(crate) const TABLES: [&[Case<'static>]; 7] = [
    &EQUAL_SHAPES,
    &SCALAR_BESIDE,
    &ONE_ELEMENT,
    &OTHER_LENGTHS,
    &FAULTY,
    &MONADS,
    &COPIES,
];
