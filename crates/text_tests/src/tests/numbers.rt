//! Words of bits.
ghost use Rattle.std.specs.Prelude.{◌≡◌};

use std::process::Abort;
use std::test::Fail;
use word_core::Word;

// What the operators give at a width.
struct Row {
    width: u8,
    a: u128,
    b: u128,
    by: u128,
    not: u128,
    neg: u128,
    add: u128,
    sub: u128,
    mul: u128,
    and: u128,
    or: u128,
    xor: u128,
    xnor: u128,
    div: u128,
    rem: u128,
    signed_div: u128,
    signed_rem: u128,
    shl: u128,
    shr: u128,
    sshr: u128,
    less: bool,
    signed_less: bool,
    all: bool,
    odd: bool,
}

// The values are Python's.
const ROWS: [Row; 6] = [
    Row {
        width: 1,
        a: 0x1,
        b: 0x1,
        by: 1,
        not: 0x0,
        neg: 0x1,
        add: 0x0,
        sub: 0x0,
        mul: 0x1,
        and: 0x1,
        or: 0x1,
        xor: 0x0,
        xnor: 0x1,
        div: 0x1,
        rem: 0x0,
        signed_div: 0x1,
        signed_rem: 0x0,
        shl: 0x0,
        shr: 0x0,
        sshr: 0x1,
        less: false,
        signed_less: false,
        all: true,
        odd: true,
    },
    Row {
        width: 7,
        a: 0x55,
        b: 0x13,
        by: 3,
        not: 0x2a,
        neg: 0x2b,
        add: 0x68,
        sub: 0x42,
        mul: 0x4f,
        and: 0x11,
        or: 0x57,
        xor: 0x46,
        xnor: 0x39,
        div: 0x4,
        rem: 0x9,
        signed_div: 0x7e,
        signed_rem: 0x7b,
        shl: 0x28,
        shr: 0xa,
        sshr: 0x7a,
        less: false,
        signed_less: true,
        all: false,
        odd: false,
    },
    Row {
        width: 8,
        a: 0x80,
        b: 0xff,
        by: 2,
        not: 0x7f,
        neg: 0x80,
        add: 0x7f,
        sub: 0x81,
        mul: 0x80,
        and: 0x80,
        or: 0xff,
        xor: 0x7f,
        xnor: 0x80,
        div: 0x0,
        rem: 0x80,
        signed_div: 0x80,
        signed_rem: 0x0,
        shl: 0x0,
        shr: 0x20,
        sshr: 0xe0,
        less: true,
        signed_less: true,
        all: false,
        odd: true,
    },
    Row {
        width: 64,
        a: 0xdeadbeef12345678,
        b: 0x123456789abcdef,
        by: 13,
        not: 0x21524110edcba987,
        neg: 0x21524110edcba988,
        add: 0xdfd104569be02467,
        sub: 0xdd8a798788888889,
        mul: 0x394f0049e242d208,
        and: 0x21046700204468,
        or: 0xdfafffef9bbfdfff,
        xor: 0xdf8efb889b9f9b97,
        xnor: 0x2071047764606468,
        div: 0xc3,
        rem: 0xcfe1113456796b,
        signed_div: 0xffffffffffffffe3,
        signed_rem: 0xffac9ba9aaaaaa8b,
        shl: 0xb7dde2468acf0000,
        shr: 0x6f56df77891a2,
        sshr: 0xfffef56df77891a2,
        less: false,
        signed_less: true,
        all: false,
        odd: true,
    },
    Row {
        width: 127,
        a: 0x40000000000000000000000000003039,
        b: 0x18697,
        by: 100,
        not: 0x3fffffffffffffffffffffffffffcfc6,
        neg: 0x3fffffffffffffffffffffffffffcfc7,
        add: 0x4000000000000000000000000001b6d0,
        sub: 0x3ffffffffffffffffffffffffffea9a2,
        mul: 0x4000000000000000000000004993479f,
        and: 0x11,
        or: 0x4000000000000000000000000001b6bf,
        xor: 0x4000000000000000000000000001b6ae,
        xnor: 0x3ffffffffffffffffffffffffffe4951,
        div: 0x29f2627b58c6a74524e68dca6a14,
        rem: 0x1266d,
        signed_div: 0x7fffd60d9d84a73958badb19723595ec,
        signed_rem: 0x7fffffffffffffffffffffffffff3a05,
        shl: 0x30390000000000000000000000000,
        shr: 0x4000000,
        sshr: 0x7ffffffffffffffffffffffffc000000,
        less: false,
        signed_less: true,
        all: false,
        odd: true,
    },
    Row {
        width: 128,
        a: 0xfffffffffffffffffffffffffffffffb,
        b: 0x10000000000000000000000007,
        by: 128,
        not: 0x4,
        neg: 0x5,
        add: 0x10000000000000000000000002,
        sub: 0xffffffeffffffffffffffffffffffff4,
        mul: 0xffffffafffffffffffffffffffffffdd,
        and: 0x10000000000000000000000003,
        or: 0xffffffffffffffffffffffffffffffff,
        xor: 0xffffffeffffffffffffffffffffffffc,
        xnor: 0x10000000000000000000000003,
        div: 0xfffffff,
        rem: 0xfffffffffffffffff90000002,
        signed_div: 0x0,
        signed_rem: 0xfffffffffffffffffffffffffffffffb,
        shl: 0x0,
        shr: 0x0,
        sshr: 0xffffffffffffffffffffffffffffffff,
        less: false,
        signed_less: true,
        all: false,
        odd: true,
    },
];

fn word(rt: &impl Abort, width: u8, bits: u128) -> Word
    ensures { result.width ≡ width }
{
    assert!(rt; 1 <= width);
    assert!(rt; width <= 128);
    assert!(rt; Word::fits(width, bits));
    Word::make(width, bits)
}

fn arithmetic(rt: &impl Abort, row: &Row) {
    let a = word(rt, row.width, row.a);
    let b = word(rt, row.width, row.b);
    assert_eq!(rt; a.neg().bits, row.neg);
    assert_eq!(rt; a.add(b).bits, row.add);
    assert_eq!(rt; a.sub(b).bits, row.sub);
    assert_eq!(rt; a.mul(b).bits, row.mul);
}

fn quotients(rt: &impl Abort, row: &Row) {
    let a = word(rt, row.width, row.a);
    let b = word(rt, row.width, row.b);
    assert!(rt; b.bits != 0);
    assert_eq!(rt; a.div(b, false).bits, row.div);
    assert_eq!(rt; a.rem(b, false).bits, row.rem);
    assert_eq!(rt; a.div(b, true).bits, row.signed_div);
    assert_eq!(rt; a.rem(b, true).bits, row.signed_rem);
}

fn bitwise(rt: &impl Abort, row: &Row) {
    let a = word(rt, row.width, row.a);
    let b = word(rt, row.width, row.b);
    assert_eq!(rt; a.not().bits, row.not);
    assert_eq!(rt; a.and(b).bits, row.and);
    assert_eq!(rt; a.or(b).bits, row.or);
    assert_eq!(rt; a.xor(b).bits, row.xor);
    assert_eq!(rt; a.xnor(b).bits, row.xnor);
}

fn shifts(rt: &impl Abort, row: &Row) {
    let a = word(rt, row.width, row.a);
    let by = word(rt, 128, row.by);
    assert_eq!(rt; a.shl(by).bits, row.shl);
    assert_eq!(rt; a.shr(by).bits, row.shr);
    assert_eq!(rt; a.sshr(by).bits, row.sshr);
}

fn comparisons(rt: &impl Abort, row: &Row) {
    let a = word(rt, row.width, row.a);
    let b = word(rt, row.width, row.b);
    assert_eq!(rt; a.equal(b), row.a == row.b);
    assert_eq!(rt; a.less(b, false), row.less);
    assert_eq!(rt; a.less(b, true), row.signed_less);
    assert_eq!(rt; a.any(), row.a != 0);
    assert_eq!(rt; a.all(), row.all);
    assert_eq!(rt; a.odd(), row.odd);
}

#[test]
fn computes(rt: HostRuntime) -> Result<(), Fail> {
    for row in &ROWS {
        arithmetic(&rt, row);
        quotients(&rt, row);
        bitwise(&rt, row);
        shifts(&rt, row);
        comparisons(&rt, row);
    }
    Ok(())
}

#[test]
fn changes_width(rt: HostRuntime) -> Result<(), Fail> {
    let a = word(&rt, 7, 0x55);
    let low = word(&rt, 64, 0xF);
    assert_eq!(rt; a.extend(128, false).bits, 0x55);
    assert_eq!(rt;
        a.extend(128, true).bits,
        0xffffffffffffffffffffffffffffffd5
    );
    assert_eq!(rt; a.cut(3).bits, 5);
    assert_eq!(rt; a.join(low).bits, 0x55000000000000000f);
    assert_eq!(rt; a.part(2, 4).bits, 5);
    Ok(())
}
