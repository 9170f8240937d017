//! Numbers against tables: texts and printed forms, faults at both sides of each limit, sums, spellings.

use alt_decimal::{Decimal, NumberFault};

const NINES: &str = "99999999999999999999999999999999999999";

fn number(text: &str) -> Option<Decimal> {
    Decimal::parse(text.as_bytes()).ok()
}

fn prints(number: &Decimal, want: &str) -> bool {
    let mut buf = [0; 176];
    let end = number.print(&mut buf);
    &buf[..end] == want.as_bytes()
}

fn reads_as(text: &str, want: &str) -> bool {
    let Some(number) = number(text) else {
        return false;
    };
    prints(&number, want)
}

static PRINTED: [(&str, &str); 14] = [
    ("-0012.500E1", "-125"),
    ("+0.5", "0.5"),
    (".5", "0.5"),
    ("5.", "5"),
    ("12.50e+1", "125"),
    ("-12.05E-3", "-0.01205"),
    ("100", "100"),
    ("-0", "0"),
    ("0E123456789012345678901234567890", "0"),
    ("1E2", "100"),
    (NINES, NINES),
    (
        "100000000000000000000000000000000000000",
        "100000000000000000000000000000000000000",
    ),
    ("-1.50", "-1.5"),
    ("1E-2", "0.01"),
];

#[test]
fn texts_print_in_plain_notation(rt: HostRuntime) {
    for (text, want) in &PRINTED {
        assert!(rt; reads_as(text, want), "{text}");
    }
}

fn is_refused(text: &str, fault: NumberFault) -> bool {
    let Err(found) = Decimal::parse(text.as_bytes()) else {
        return false;
    };
    found == fault
}

static REFUSED: [(&str, NumberFault); 17] = [
    (
        "999999999999999999999999999999999999999",
        NumberFault::TooManyDigits,
    ),
    ("1E126", NumberFault::TooLarge),
    ("1E-131", NumberFault::TooSmall),
    (
        "1E99999999999999999999999999999999999999999",
        NumberFault::TooLarge,
    ),
    (
        "1E-99999999999999999999999999999999999999999",
        NumberFault::TooSmall,
    ),
    (
        "999999999999999999999999999999999999999E999",
        NumberFault::TooManyDigits,
    ),
    ("", NumberFault::NotANumber),
    ("1E", NumberFault::NotANumber),
    (".", NumberFault::NotANumber),
    ("+", NumberFault::NotANumber),
    ("-.", NumberFault::NotANumber),
    ("1.2.3", NumberFault::NotANumber),
    ("1E+", NumberFault::NotANumber),
    ("--1", NumberFault::NotANumber),
    (" 1", NumberFault::NotANumber),
    ("1 ", NumberFault::NotANumber),
    ("0x1", NumberFault::NotANumber),
];

#[test]
fn other_texts_have_their_fault(rt: HostRuntime) {
    for (text, fault) in &REFUSED {
        assert!(rt; is_refused(text, *fault), "{text}");
    }
}

fn has_digits(text: &str, count: u32) -> bool {
    let Some(number) = number(text) else {
        return false;
    };
    number.digits() == count
}

static DIGITS: [(&str, u32); 4] = [("9E125", 1), ("1E-130", 1), ("-12.340", 4), ("0", 1)];

#[test]
fn digits_are_counted_without_zeros_at_the_ends(rt: HostRuntime) {
    for (text, count) in &DIGITS {
        assert!(rt; has_digits(text, *count), "{text}");
    }
}

fn adds(a: &str, b: &str, want: &str) -> bool {
    let (Some(a), Some(b)) = (number(a), number(b)) else {
        return false;
    };
    let Ok(sum) = a.add(&b) else {
        return false;
    };
    prints(&sum, want)
}

static SUMS: [(&str, &str, &str); 5] = [
    (NINES, "1", "100000000000000000000000000000000000000"),
    ("0.1", "0.2", "0.3"),
    ("5", "-5", "0"),
    ("1E38", "-1", NINES),
    ("1.5", "-1.4", "0.1"),
];

#[test]
fn sums_are_exact(rt: HostRuntime) {
    for (a, b, want) in &SUMS {
        assert!(rt; adds(a, b, want), "{a} and {b}");
    }
}

fn has_no_sum(a: &str, b: &str, fault: NumberFault) -> bool {
    let (Some(a), Some(b)) = (number(a), number(b)) else {
        return false;
    };
    let Err(found) = a.add(&b) else {
        return false;
    };
    found == fault
}

static NO_SUMS: [(&str, &str, NumberFault); 4] = [
    (NINES, "2", NumberFault::TooManyDigits),
    ("1E100", "1E-100", NumberFault::TooManyDigits),
    ("9E125", "1E125", NumberFault::TooLarge),
    ("1.1E-130", "-1E-130", NumberFault::TooSmall),
];

#[test]
fn sums_that_fit_nowhere_have_their_fault(rt: HostRuntime) {
    for (a, b, fault) in &NO_SUMS {
        assert!(rt; has_no_sum(a, b, *fault), "{a} and {b}");
    }
}

fn ten_less_nine_and_a_half() -> bool {
    let (Some(a), Some(b)) = (number("10"), number("9.5")) else {
        return false;
    };
    let Ok(difference) = a.subtract(&b) else {
        return false;
    };
    prints(&difference, "0.5")
}

// Where the first is below the second -1, where it is the same number 0, where it is above 1.
fn is_ordered(a: &str, b: &str, order: i8) -> bool {
    let (Some(a), Some(b)) = (number(a), number(b)) else {
        return false;
    };
    let found = a.order(&b);
    (found.is_lt() == (order < 0)) & (found.is_gt() == (order > 0)) & ((a == b) == (order == 0))
}

static ORDERED: [(&str, &str, i8); 4] = [
    ("9", "10", -1),
    ("-1", "-2", 1),
    ("1.50", "15E-1", 0),
    ("1E2", "100", 0),
];

#[test]
fn differences_and_order(rt: HostRuntime) {
    assert!(rt; ten_less_nine_and_a_half());
    for (a, b, order) in &ORDERED {
        assert!(rt; is_ordered(a, b, *order), "{a} and {b}");
    }
}

fn spells(text: &str, want: &[u8]) -> bool {
    let Some(number) = number(text) else {
        return false;
    };
    let mut buf = [0; 22];
    let end = number.spell(&mut buf);
    let Some((back, length)) = Decimal::unspell(&buf) else {
        return false;
    };
    (&buf[..end] == want) & (back == number) & (length == end)
}

static SPELLED: [(&str, &[u8]); 6] = [
    ("9", b"\x03\x82\x5b\x00"),
    ("9.5", b"\x03\x82\x60\x00"),
    ("10", b"\x03\x83\x0b\x00"),
    ("1.05", b"\x03\x82\x0b\x33\x00"),
    ("-1", b"\x01\x7d\xf4\xff"),
    ("0", b"\x02"),
];

#[test]
fn spellings_by_their_bytes(rt: HostRuntime) {
    for (text, want) in &SPELLED {
        assert!(rt; spells(text, want), "{text}");
    }
}

static NO_SPELLINGS: [&[u8]; 9] = [
    b"",
    b"\x04\x82\x5b\x00",
    b"\x03",
    b"\x03\x82\x00",
    b"\x03\x82\x5b",
    b"\x03\x82\x66\x00",
    b"\x03\x82\x5b\x01\x00",
    b"\x03\x82\x05\x00",
    b"\x01\x7d\xf4\x00",
];

#[test]
fn other_bytes_are_no_spellings(rt: HostRuntime) {
    for bytes in &NO_SPELLINGS {
        assert!(rt; Decimal::unspell(bytes).is_none());
    }
}
