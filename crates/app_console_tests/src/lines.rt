//! Lines of an input, and what is fed for them.
use app_console::lines::{
    ACCUMULATOR, PROMPT, SPACE, TOO_LONG, first_line, is_long, is_quit, line_of, marked, opening,
};
use app_console::say::help;
use app_console::table::Console;
use hpx_value::memory::OutOfMemory;

#[test]
fn lines_are_cut(rt: HostRuntime) -> Result<(), OutOfMemory> {
    assert!(rt;
        first_line(b"add 5\r\nquery\n") == Some((b"add 5".as_slice(), b"query\n".as_slice()))
    );
    assert!(rt; first_line(b"query").is_none());
    assert!(rt; line_of(b"query\r\r") == b"query\r".as_slice());
    assert!(rt;
        is_quit(b" quit\t") && !is_quit(b"quit quit") && !is_quit(b"") && !is_quit(b"quits")
    );
    assert!(rt; !is_long(&[b' '; 1024]) && is_long(&[b' '; 1025]));
    Ok(())
}

#[test]
fn texts_are_as_they_stand(rt: HostRuntime) -> Result<(), OutOfMemory> {
    let alloc = rt.alloc();
    assert!(rt; marked(alloc, ACCUMULATOR, b"query")?.as_slice() == b"aquery".as_slice());
    assert!(rt; marked(alloc, SPACE, b"")?.as_slice() == b"s".as_slice());
    assert!(rt; opening(alloc)?.as_slice() == b"oopen".as_slice());
    assert!(rt; PROMPT == b"> ".as_slice());
    assert!(rt; TOO_LONG == b"error: line too long\n".as_slice());
    assert!(rt;
        help(Console::Accumulator)
            == b"commands: reset, add [amount], query, help, quit\n".as_slice()
    );
    Ok(())
}
