use answers::run::{run_check, run_clear};
use std::io::Read;
use std::test::Fail;

const SHEET: &[u8] =
    b"K 2\nmoney\nweeks\nI 2\ncash\nspring\nM 2\nnorth\nquay\nH 1\n0 1 5\nO 2\n0 5 1 1\n1 5 100 0\n0 5 0 0\n1 3 1 1\n0 3 0 0\n1 3 190 0\nL 0\n";

const ANSWER: &[u8] = b"passed\nmoney 270\nweeks 3\noffer 0 -300 0\noffer 1 570 3\n";

#[test]
fn input_may_come_in_pieces(rt: HostRuntime) -> Result<(), Fail> {
    let pieces = SHEET[..20].chain(&SHEET[20..21]).chain(&SHEET[21..]);
    let mut filled = Vec::new(rt.alloc());
    run_clear(pieces, &mut filled, rt.alloc())?;
    let mut printed = Vec::new(rt.alloc());
    run_check(filled.as_slice(), &mut printed, rt.alloc())?;
    assert_eq!(rt; printed.as_slice(), ANSWER);
    Ok(())
}

#[test]
fn output_that_is_full_is_an_error(rt: HostRuntime) {
    let mut room = [0; 10];
    assert!(rt; run_check(SHEET, &mut &mut room[..], rt.alloc()).is_err());
    assert!(rt; run_clear(SHEET, &mut &mut room[..], rt.alloc()).is_err());
}
