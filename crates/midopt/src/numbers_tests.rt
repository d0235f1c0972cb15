use crate::{binary_number, unary_number, widened_number};
use midcode::{BinaryOp, UnaryOp};
use prunum::Width;

#[test]
fn one_number(rt: HostRuntime) {
    for (op, a, number) in [
        (UnaryOp::Negate, 0, 0),
        (UnaryOp::Negate, 1, u32::MAX),
        (UnaryOp::Complement, 0, u32::MAX),
        (UnaryOp::Not, 0, 1),
        (UnaryOp::Not, 2, 0),
    ] {
        assert_eq!(rt; unary_number(op, a), number, "{a}");
    }
}

const LEAST: u32 = 0x8000_0000;

#[test]
fn two_numbers(rt: HostRuntime) {
    for (op, a, b, number) in [
        (BinaryOp::Add, u32::MAX, 2, 1),
        (BinaryOp::Subtract, 0, 1, u32::MAX),
        (BinaryOp::And, 12, 10, 8),
        (BinaryOp::Or, 12, 10, 14),
        (BinaryOp::Xor, 12, 10, 6),
        (BinaryOp::ShiftLeft, 3, 31, LEAST),
        (BinaryOp::ShiftLeft, 3, 32, 3),
        (BinaryOp::ShiftRight, LEAST, 31, 1),
        (BinaryOp::ShiftRightSigned, LEAST, 31, u32::MAX),
        (BinaryOp::Multiply, 65536, 65537, 65536),
        (BinaryOp::Quotient, u32::MAX, 2, 0x7fff_ffff),
        (BinaryOp::Quotient, 7, 0, u32::MAX),
        (BinaryOp::QuotientSigned, LEAST, u32::MAX, LEAST),
        (BinaryOp::Remainder, 7, 0, 7),
        (BinaryOp::RemainderSigned, 0xffff_fff9, 2, u32::MAX),
        (BinaryOp::Equal, 7, 7, 1),
        (BinaryOp::NotEqual, 7, 7, 0),
        (BinaryOp::Less, LEAST, 0, 0),
        (BinaryOp::LessSigned, LEAST, 0, 1),
        (BinaryOp::LessOrEqual, u32::MAX, u32::MAX, 1),
        (BinaryOp::LessOrEqualSigned, 0x7fff_ffff, LEAST, 0),
        (BinaryOp::LeftmostBit, 0x0001_0000, 1, 16),
        (BinaryOp::LeftmostBit, u32::MAX, 2, 32),
    ] {
        assert_eq!(rt; binary_number(op, a, b), number, "{a:x}, {b:x}");
    }
}

#[test]
fn wider_numbers(rt: HostRuntime) {
    for (from, a, number) in [
        (Width::B1, 0x80, 0xffff_ff80),
        (Width::B1, 0x7f, 0x7f),
        (Width::B2, 0x8000, 0xffff_8000),
    ] {
        assert_eq!(rt; widened_number(from, a), number, "{a:x}");
    }
}
