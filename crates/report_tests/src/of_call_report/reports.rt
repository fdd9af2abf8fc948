//! Reports in pieces, failing writes, and versions kept.

use call_report::{FlowSeen, Report, Seen, Status};
use net_io::MemorySink;
use std::alloc::Global;
use std::process::Abort;

/// A report with so many octets waiting.
fn filled(rt: &impl Abort, alloc: Global, count: usize) -> Report {
    let mut report = Report::new(alloc);
    for _ in 0..count {
        report.waiting.push(b'a').expect(rt, "there is memory");
    }
    report
}

// A piece has 16,384 octets.
#[test]
fn hands_on_by_pieces(rt: HostRuntime) {
    let alloc = rt.alloc();
    let mut sink = MemorySink::new(alloc, &[], 4096).expect(&rt, "there is memory");
    let mut report = filled(&rt, alloc, 16383);
    report.pass(&mut sink).expect(&rt, "written");
    assert_eq!(rt; sink.bytes().len(), 0);
    report.waiting.push(b'b').expect(&rt, "there is memory");
    report.pass(&mut sink).expect(&rt, "written");
    assert_eq!(rt; sink.bytes().len(), 16384);
    assert_eq!(rt; report.waiting.len(), 0);
    report.waiting.push(b'c').expect(&rt, "there is memory");
    assert_eq!(rt; report.end(&mut sink, b"d", Status::Limit), Status::Limit);
    assert!(rt; sink.bytes().ends_with(b"abcd"));
    assert_eq!(rt; sink.bytes().len(), 16386);
}

/// Which write fails, the status, and how many octets were written: the body by sevens, then the event's line.
const ENDS: [(u32, Status, usize); 5] = [
    (0, Status::WrongCapture, 20),
    (1, Status::WriteFault, 0),
    (2, Status::WriteFault, 7),
    (3, Status::WrongCapture, 10),
    (4, Status::WrongCapture, 17),
];

#[test]
fn ends_reports(rt: HostRuntime) {
    let alloc = rt.alloc();
    for (write, status, count) in ENDS {
        let mut sink = MemorySink::new(alloc, &[write], 7).expect(&rt, "there is memory");
        let report = filled(&rt, alloc, 10);
        assert_eq!(rt;
            report.end(&mut sink, b"0123456789", Status::WrongCapture),
            status
        );
        assert_eq!(rt; sink.bytes().len(), count);
    }
}

#[test]
fn keeps_versions(rt: HostRuntime) {
    let alloc = rt.alloc();
    let mut flow = FlowSeen::new(alloc);
    flow.push(&[15, 15]).expect(&rt, "there is memory");
    flow.push(&[]).expect(&rt, "there is memory");
    flow.push(&[4294967295]).expect(&rt, "there is memory");
    assert_eq!(rt; flow.len(), 3);
    assert_eq!(rt; flow.packet(0), [15u32, 15].as_slice());
    assert_eq!(rt; flow.packet(1).len(), 0);
    assert_eq!(rt; flow.packet(2), [4294967295u32].as_slice());
    let mut seen = Seen::none(alloc);
    seen.push(flow).expect(&rt, "there is memory");
    assert_eq!(rt; seen.flows().len(), 1);
    assert_eq!(rt; Status::Limit.number(), 7);
}
