use crate::rows::Rows;
use syntax::cell::Cell;
use syntax::fault::{Fault, ReadFault, Stage};

// One node whose output is not its input.
const INVERTER: [u8; 9] = [0xb7, 0x00, 0x00, 0x00, 0x08, 0x02, 0x10, 0x01, 0x80];

fn told(answer: Result<(), ReadFault>) -> Option<Fault> {
    answer.err().map(Fault::from)
}

fn reading(number: u8, first: usize) -> Option<Fault> {
    Some(Fault {
        number,
        stage: Stage::Reading,
        first,
        second: 0,
    })
}

#[test]
fn what_was_read_is_written(rt: HostRuntime) {
    let mut cells = [Cell::If; 4096];
    let mut rows = Rows::new(&mut cells);
    assert_eq!(rt; told(rows.read(&INVERTER)), None);
    // copied out of the rows, with blanks past its flows
    let node = rows.nodes().first().copied();
    let flows = node.map(|node| (
        node.flow_count(),
        node.flows.len(),
        node.flows.places().len(),
    ));
    assert_eq!(rt; flows, Some((2, 2, 31)));
    let mut out = [0xff; 2049];
    assert_eq!(rt; rows.write(&mut out).ok(), Some(9));
    assert_eq!(rt;
        [out[0], out[7], out[8], out[9], out[2047], out[2048]],
        [0xb7, 0x01, 0x80, 0, 0, 0xff]
    );
}

#[test]
fn faults_tell_their_bit(rt: HostRuntime) {
    let mut cells = [Cell::If; 4096];
    let mut rows = Rows::new(&mut cells);
    let mut filled = INVERTER;
    filled[8] = 0x81;
    assert_eq!(rt; told(rows.read(&filled)), reading(5, 66));
    assert_eq!(rt; told(rows.read(&INVERTER[0..8])), reading(3, 61));
    assert_eq!(rt; told(rows.read(&[0xb6])), reading(4, 0));
    assert_eq!(rt; told(rows.read(&[])), reading(2, 0));
    let mut out = [0xff; 2048];
    assert_eq!(rt; rows.write(&mut out).ok(), Some(0));
}

#[test]
fn few_cells_are_refused(rt: HostRuntime) {
    let mut cells = [Cell::If; 4095];
    let mut rows = Rows::new(&mut cells);
    assert_eq!(rt; told(rows.read(&INVERTER)), reading(1, 0));
}
