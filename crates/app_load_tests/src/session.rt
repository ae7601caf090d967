//! The lines of a made session, one at a time.
use app_load::session::Session;
use std::alloc::Global;
use std::fmt::Write;
use std::test::Fail;

/// The first lines at two localities, up to forty of them, each before a comma.
fn first_lines(alloc: Global, start: u32, count: u32) -> Result<String, Fail> {
    let mut session = Session::new(start, count, 2);
    let mut all = String::new(alloc);
    for _ in 0..40 {
        if let Some(line) = session.next(alloc)? {
            for byte in line.as_slice() {
                let letter = char::from(*byte);
                write!(all, "{letter}")?;
            }
            all.push_str(",")?;
        }
    }
    Ok(all)
}

#[test]
fn lines_come_in_order(rt: HostRuntime) -> Result<(), Fail> {
    let alloc = rt.alloc();
    let objects = "new o0 0,new o1 1,new o2 0,new o3 1,new o4 0,new o5 1,new o6 0,new o7 1,";
    for (count, want) in [
        (
            0,
            "query o0,query o1,query o2,query o3,query o4,query o5,query o6,query o7,",
        ),
        (
            4,
            "new o6 1,drop o6,new o1 0,share o3 1,query o0,query o1,query o2,query o3,query o4,query o5,query o7,",
        ),
        (
            10,
            "new o6 1,drop o6,new o1 0,share o3 1,add o3 51,drop o3,move o2 1,drop o3,add o4 12,unshare o6 1,query o0,query o1,query o2,query o4,query o5,query o7,",
        ),
    ] {
        let all = first_lines(alloc, 1, count)?;
        assert!(rt;
            all.as_str() == format!(in alloc; "{objects}{want}")?.as_str(),
            "{all}"
        );
    }
    Ok(())
}

#[test]
fn a_session_that_ended_has_no_line(rt: HostRuntime) -> Result<(), Fail> {
    let alloc = rt.alloc();
    let mut session = Session::new(1, 0, 64);
    for _ in 0..16 {
        assert!(rt; session.next(alloc)?.is_some());
    }
    assert!(rt; session.next(alloc)?.is_none());
    assert!(rt; session.next(alloc)?.is_none());
    Ok(())
}
