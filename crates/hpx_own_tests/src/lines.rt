//! The lines as a table.
use hpx_own::lines::{Handled, handled_as};
use std::str::from_utf8;
use std::test::Fail;

// A line of `space`, and what is done with it, or what is printed where it is refused.
const LINES: [(&str, &str); 37] = [
    ("hold", "Hold"),
    ("\t hold \t", "Hold"),
    ("hold x", "Fed"),
    ("hold hold", "Fed"),
    ("Hold", "Fed"),
    ("holds", "Fed"),
    ("drain", "Drain"),
    ("drain 1", "Fed"),
    ("audit", "Audit"),
    ("audit x", "Fed"),
    ("", "Fed"),
    ("  \t ", "Fed"),
    ("query a", "Fed"),
    ("turn", "Fed"),
    ("turn 1 2", "Fed"),
    ("turn 0", "Turn(0)"),
    ("turn -0", "Turn(0)"),
    ("turn\t007 ", "Turn(7)"),
    ("turn 1000000", "Turn(1000000)"),
    ("turn 1000001", "error: bad number\n"),
    ("turn -1", "error: bad number\n"),
    ("turn +1", "error: bad number\n"),
    ("turn 1x", "error: bad number\n"),
    ("turn -", "error: bad number\n"),
    ("turn 4294967296", "error: bad number\n"),
    ("turn 18446744073709551617", "error: bad number\n"),
    ("turn turn", "error: bad number\n"),
    ("counter", "Fed"),
    ("counter a b", "Fed"),
    (
        "counter /parcels{locality#0/total}/count/sent",
        "Count(Counter { what: ParcelsSent, locality: 0 })",
    ),
    (
        "counter  /credits{locality#63/total}/count/asked",
        "Count(Counter { what: CreditsAsked, locality: 63 })",
    ),
    (
        "counter /parcels{locality#64/total}/count/sent",
        "error: bad counter\n",
    ),
    (
        "counter /parcels{locality#01/total}/count/sent",
        "error: bad counter\n",
    ),
    (
        "counter /parcels{locality#0/total}/count/sent@x",
        "error: bad counter\n",
    ),
    ("counter 1", "error: bad counter\n"),
    ("counters /parcels{locality#0/total}/count/sent", "Fed"),
    ("turn\u{a0}1", "Fed"),
];

// A console without lines of the top call's own has each of them fed.
#[test]
fn lines_are_handled(rt: HostRuntime) -> Result<(), Fail> {
    for (line, wanted) in LINES {
        let shown = match handled_as(true, line.as_bytes()) {
            Handled::Refused(refusal) => format!(in rt.alloc(); "{}", from_utf8(refusal.text())?)?,
            handled => format!(in rt.alloc(); "{handled:?}")?,
        };
        assert_eq!(rt; shown.as_str(), wanted, "{line}");
        assert!(rt;
            handled_as(false, line.as_bytes()) == Handled::Fed,
            "{line}"
        );
    }
    Ok(())
}
