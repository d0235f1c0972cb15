use crate::*;
use asmword::Printed;
use std::alloc::Global;
use std::test::*;

/// The label and what stands behind it, printed; `Form` where there is no line, `Range` where a number is out of its range.
fn told(alloc: Global, text: &[u8]) -> Result<String, Fail> {
    let Some(line) = read_line(text) else {
        return Ok(String::from_str(alloc, "Form")?);
    };
    if !line.fits() {
        return Ok(String::from_str(alloc, "Range")?);
    }
    let label = if line.label.is_some() { "label " } else { "" };
    match line.statement {
        Statement::Nothing => Ok(format!(in alloc; "{label}nothing")?),
        Statement::Note { kind, value } => {
            let note = PrintedLine::Note {
                kind,
                value: value as u32,
            };
            Ok(format!(in alloc; "{label}{note}")?)
        }
        Statement::Whole(form) | Statement::Aimed { form, .. } => {
            let word = PrintedLine::Word(Printed { form, label: 1 });
            Ok(format!(in alloc; "{label}{word}")?)
        }
    }
}

#[test]
fn each_form_of_a_line_is_read(rt: HostRuntime) -> Result<(), Fail> {
    for (text, wanted) in [
        (b"".as_slice(), "nothing"),
        (b" \t", "nothing"),
        (b"; \xc2\xb5s: HALT", "nothing"),
        (b"\tHALT;", "HALT"),
        (b"L1:", "label nothing"),
        (b" L1:\tHALT ; stop", "label HALT"),
        (b"L1:ADD R1, R2, 3", "label ADD R1, R2, 3"),
        (b"R32: ; a label", "label nothing"),
        (b"again: QBNE again, R2, 0", "label QBNE L1, R2, 0"),
        (b"LBBO & R2, R4, 0, 4", "LBBO R2, R4, 0, 4"),
        (b".note enter 63", ".note enter 63"),
        (b" .note  delayin\t0x10 ", ".note delayin 16"),
        (b".note delayout 1000000", ".note delayout 1000000"),
        (b"L1:.note leave 0", "label .note leave 0"),
        (b".note own 0", ".note own 0"),
        (b".note return 0", ".note return 0"),
        (b".note turns 4294967295", ".note turns 4294967295"),
    ] {
        assert_eq!(rt; told(rt.alloc(), text)?.as_str(), wanted, "{text:?}");
    }
    Ok(())
}

#[test]
fn what_is_no_line_is_told_by_its_form_first(rt: HostRuntime) -> Result<(), Fail> {
    for (text, wanted) in [
        (b"FOO".as_slice(), "Form"),
        (b"L1 : HALT", "Form"),
        (b"L1: L2: HALT", "Form"),
        (b"1L: HALT", "Form"),
        (b"r31: HALT", "Form"),
        (b": HALT", "Form"),
        (b"HALT: 1: 2", "Form"),
        (b".NOTE own 0", "Form"),
        (b".note Own 0", "Form"),
        (b".note own", "Form"),
        (b".note own 00", "Form"),
        (b".note own 0 0", "Form"),
        (b".note 0", "Form"),
        (b"ADD R2, R2, 256", "Range"),
        (b".note enter 64", "Range"),
        (b".note delayin 0", "Range"),
        (b".note delayout 1000001", "Range"),
        (b".note own 1", "Range"),
        (b".note turns 0", "Range"),
        (b".note turns 4294967296", "Range"),
        (b".note turns 0x100000000000000001", "Range"),
    ] {
        assert_eq!(rt; told(rt.alloc(), text)?.as_str(), wanted, "{text:?}");
    }
    Ok(())
}
