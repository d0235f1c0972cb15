use crate::*;
use std::alloc::Global;
use std::test::*;

/// The text printed, where it is read as an instruction; `Form` where it has no form, `Range` where a number is out of range.
fn told(alloc: Global, text: &[u8]) -> Result<String, Fail> {
    let Some(form) = read_form(text) else {
        return Ok(String::from_str(alloc, "Form")?);
    };
    let Some(i) = instruction(form) else {
        return Ok(String::from_str(alloc, "Range")?);
    };
    let printed = Printed {
        form: form_of(&i),
        label: 1,
    };
    Ok(printed.to_string(alloc)?)
}

#[test]
fn each_instruction_is_read_and_printed(rt: HostRuntime) -> Result<(), Fail> {
    for (text, wanted) in [
        (b"add r2.w1 ,R3 , 0x0aF".as_slice(), "ADD R2.w1, R3, 175"),
        (b"SUB R0,R1,R2.b3", "SUB R0, R1, R2.b3"),
        (b"Lsl R0, R1, 255", "LSL R0, R1, 255"),
        (b"NOT R1, R2.b0", "NOT R1, R2.b0"),
        (b"JMP somewhere", "JMP L1"),
        (b"JMP R32", "JMP L1"),
        (b"JMP r3.W2", "Form"),
        (b"JMP r3.w2", "JMP R3.w2"),
        (b"JAL R3.w2, C4", "JAL R3.w2, L1"),
        (b"LDI R31, 65535", "LDI R31, 65535"),
        (b"LMBD R1, R2, 1", "LMBD R1, R2, 1"),
        (b" HALT\t", "HALT"),
        (b"XIN 10, R29, 1", "XIN 10, R29, 1"),
        (b"XOUT 0x00C, R2, 4", "XOUT 12, R2, 4"),
        (b"LOOP end, 256", "LOOP L1, 256"),
        (b"qbbs _x9, R2, 31", "QBBS L1, R2, 31"),
        (b"QBA L9", "QBA L1"),
        (b"lbbo & R2.b1, R4, R5.w0, 7", "LBBO R2.b1, R4, R5.w0, 7"),
        (b"LBCO &R2.b0, c28, 0, 4", "LBCO R2, C28, 0, 4"),
        (b"SBBO R29.b3, R0, 255, 1", "SBBO R29.b3, R0, 255, 1"),
        (b"SBCO R0, C0, R29, 120", "SBCO R0, C0, R29, 120"),
    ] {
        assert_eq!(rt; told(rt.alloc(), text)?.as_str(), wanted, "{text:?}");
    }
    Ok(())
}

#[test]
fn what_is_no_instruction_is_told_by_its_form_first(rt: HostRuntime) -> Result<(), Fail> {
    for (text, wanted) in [
        (b"".as_slice(), "Form"),
        (b"FOO", "Form"),
        (b"HALT 1", "Form"),
        (b"ADD R1, R2", "Form"),
        (b"ADD R1, R2, R3, R4", "Form"),
        (b"ADD R1, R2,", "Form"),
        (b"ADD R01, R2, 256", "Form"),
        (b"ADD R2.B1, R2, R3", "Form"),
        (b"ADD R2.b4, R2, R3", "Form"),
        (b"ADD R2.b1.b1, R2, R3", "Form"),
        (b"LDI R2, 05", "Form"),
        (b"LDI R2, 0X5", "Form"),
        (b"LDI R2, 0x", "Form"),
        (b"QBA 4", "Form"),
        (b"QBA r31", "Form"),
        (b"LBBO R2.w0, R4, 0, 4", "Form"),
        (b"LBBO R2, R4.b0, 0, 4", "Form"),
        (b"ADD &R2, R4, 0", "Form"),
        (b"ADD R32, R2, R3", "Range"),
        (b"ADD R4294967296, R2, R3", "Range"),
        (b"ADD R2, R2, 256", "Range"),
        (b"JMP R32.b0", "Range"),
        (b"LDI R2, 65536", "Range"),
        (b"LDI R2, 0x10000000000000001", "Range"),
        (b"LOOP L1, 0", "Range"),
        (b"LOOP L1, 257", "Range"),
        (b"LBBO R30, R4, 0, 4", "Range"),
        (b"LBBO R2, R30, 0, 4", "Range"),
        (b"LBBO R2, R4, R30, 4", "Range"),
        (b"LBBO R2, R4, 0, 0", "Range"),
        (b"LBBO R29, R4, 0, 5", "Range"),
        (b"LBCO R2, C3, 0, 4", "Range"),
        (b"XIN 13, R2, 1", "Range"),
        (b"XIN 10, R29, 2", "Range"),
        (b"XOUT 10, R2, 5", "Range"),
    ] {
        assert_eq!(rt; told(rt.alloc(), text)?.as_str(), wanted, "{text:?}");
    }
    Ok(())
}

#[test]
fn labels_have_their_names(rt: HostRuntime) -> Result<(), Fail> {
    for (text, wanted) in [
        (b" JMP somewhere".as_slice(), Some(b"somewhere".as_slice())),
        (b"JMP R3", None),
        (b"JAL R3.w2,\tC4 ", Some(b"C4")),
        (b"JAL R3.w2, R32", Some(b"R32")),
        (b"loop End, 256", Some(b"End")),
        (b"qbbs _x9 , R2, 31", Some(b"_x9")),
        (b"QBA L9", Some(b"L9")),
        (b"ADD R1, R2, R3", None),
    ] {
        let Some(form) = read_form(text) else {
            return Err(Fail::new("no form"));
        };
        assert_eq!(rt; label_of(&form, text), wanted, "{text:?}");
        assert_eq!(rt; form.has_label(), wanted.is_some(), "{text:?}");
    }
    Ok(())
}
