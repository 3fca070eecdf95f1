//! Lines that are read by themselves, each with its event or its fault.

use crate::same::same;
use std::process::Abort;
use std::test::Fail;
use trdp_base::Topo;
use trdp_engine::{Call, Event};
use trdp_text::{
    LINE_MAX, Line, LineFault, OperatorLine, Question, read_control, read_line, read_operator,
};

/// What a line is read as, as far as these tests look.
#[derive(Clone, Copy, Debug, PartialEq, Eq)]
enum Said {
    Nothing,
    Moment(u64),
    Topology(u32, u32),
    /// The slot, and the handle.
    Get(u16, u32),
    Asks(Question),
    /// Any other event.
    Other,
    Bad(LineFault),
}

/// What it was read as.
fn comes_to(read: &Result<Line, LineFault>) -> Said {
    match read {
        Ok(line) => match line.event() {
            None => Said::Nothing,
            Some(Event::Moment(moment)) => Said::Moment(moment),
            Some(Event::Topology(Topo { etb, op_trn })) => Said::Topology(etb, op_trn),
            Some(
                Event::Call {
                    slot,
                    call: Call::Get { handle },
                },
            ) => Said::Get(slot, handle),
            Some(_) => Said::Other,
        },
        Err(fault) => Said::Bad(*fault),
    }
}

/// What a line of the operator was read as.
fn operator_says(read: &Result<Option<OperatorLine>, LineFault>) -> Said {
    match read {
        Ok(None) => Said::Nothing,
        Ok(Some(OperatorLine::Event(Event::Topology(topo)))) => {
            Said::Topology(topo.etb, topo.op_trn)
        }
        Ok(Some(OperatorLine::Event(_))) => Said::Other,
        Ok(Some(OperatorLine::Question(question))) => Said::Asks(*question),
        Err(fault) => Said::Bad(*fault),
    }
}

/// Lines of the operator.
static OPERATORS: [(&str, Said); 8] = [
    ("topology 8 0\r\n", Said::Topology(8, 0)),
    ("role 1 leader", Said::Other),
    ("totals\n", Said::Asks(Question::Totals)),
    ("slots", Said::Asks(Question::Slots)),
    ("slots 1", Said::Bad(LineFault::Count)),
    ("totals ", Said::Bad(LineFault::Count)),
    ("moment 1", Said::Bad(LineFault::Unknown)),
    ("# totals", Said::Nothing),
];

/// Lines of a script.
static LINES: [(&str, Said); 7] = [
    ("moment 7", Said::Moment(7)),
    ("", Said::Nothing),
    ("# x", Said::Nothing),
    ("moment", Said::Bad(LineFault::Count)),
    ("moment 07", Said::Bad(LineFault::BadWord)),
    ("jump 1", Said::Bad(LineFault::Unknown)),
    ("call 0 jump", Said::Bad(LineFault::Unknown)),
];

// rule: line.unknown: two lines with a word that is none are Unknown
// rule: line.count: a moment without its number is Count
// rule: line.length: 140,001 bytes are TooLong
// rule: line.bad: 07 is BadWord
// rule: line.skip: an empty line and a remark are no events
#[test]
fn a_line_says_its_event(rt: HostRuntime) -> Result<(), Fail> {
    for (line, wanted) in &LINES {
        same(
            &rt,
            *line,
            comes_to(&read_line(rt.alloc(), line.as_bytes())),
            *wanted,
        );
    }
    let long = vec![in rt.alloc(); b'x'; LINE_MAX + 1]?;
    let found = comes_to(&read_line(rt.alloc(), &long));
    same(&rt, "a long line", found, Said::Bad(LineFault::TooLong));
    Ok(())
}

// rule: control.line: a call without its slot is read as one of slot 0
// rule: control.operator: topology, role and questions are read, moment is Unknown
#[test]
fn a_datagram_says_its_event(rt: HostRuntime) {
    let found = comes_to(&read_control(rt.alloc(), 0, b"get 1"));
    same(&rt, "get", found, Said::Get(0, 1));
    for (line, wanted) in &OPERATORS {
        let found = operator_says(&read_operator(line.as_bytes()));
        same(&rt, *line, found, *wanted);
    }
}
