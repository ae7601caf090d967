//! Sessions of both consoles, and what they print: of each row this is proved of the plain space, and tests run it over worlds.
ghost use Rattle.std.specs.Prelude.{◌≡◌, length};
ghost use Rattle.std.specs.List.{AllByRecursion};
ghost use Rattle.app_console_tests.specs.Rows.{plain_text};

use app_console::table::Console;

/// A console, how many localities there are, the lines, and what they print in all, without prompts.
pub type Row = (Console, u32, &'static [u8], &'static [u8]);

const ROWS: &[Row] = &[
    // Objects that are waited for.
    (
        Console::Space,
        2,
        b"channel c 1\nget c\nput c 5\nput c 6\nclose c\nget c\nget c\nput c 7",
        b"5\n6\nerror: closed\nerror: closed\n",
    ),
    (
        Console::Space,
        1,
        b"latch l 0 1\nwait l\ndown l\ndown l\nadd l 1",
        b"released\nerror: spent\nerror: wrong kind\n",
    ),
    (
        Console::Space,
        3,
        b"latch l 2 2\nwait l\nwait l\nwait l\ndown l\ndown l\nwait l",
        b"released\nreleased\nreleased\nreleased\n",
    ),
    (
        Console::Space,
        2,
        b"promise p 0\nput p 4\nput p 5\nget p",
        b"error: already set\n4\n",
    ),
    (
        Console::Space,
        2,
        b"promise p 1\nget p\nget p\nput p -3",
        b"-3\n-3\n",
    ),
    // At most seven wait at a promise.
    (
        Console::Space,
        2,
        b"promise p 1\nget p\nget p\nget p\nget p\nget p\nget p\nget p\nget p\nput p 1",
        b"error: full\n1\n1\n1\n1\n1\n1\n1\n",
    ),
    (
        Console::Space,
        2,
        b"barrier b 0 2\narrive b\narrive b",
        b"released\nreleased\n",
    ),
    // A wrong call of each kind.
    (
        Console::Space,
        2,
        b"channel c 0\nadd c 1\ndown c\nnew a 1\nget a\nput a 1\nbarrier b 1 1\nwait b\narrive b\npromise p 0\nclose p",
        b"error: wrong kind\nerror: wrong kind\nerror: wrong kind\nerror: wrong kind\nerror: wrong kind\nreleased\nerror: wrong kind\n",
    ),
    // Names: keys in the order of their bytes, and what a name stands for once it is dropped and looked up.
    (
        Console::Space,
        2,
        b"new a 1\nregister a n\nregister a n\nnames",
        b"error: taken\nn\n",
    ),
    (
        Console::Space,
        2,
        b"names\nnew a 1\nregister a b\nregister a B\nregister a ab\nnames\nunregister b\nunregister b\nnames",
        b"\nB ab b\nerror: no such name\nB ab\n",
    ),
    (
        Console::Space,
        2,
        b"new a 1\nadd a 4\nregister a k\ndrop a\nquery a\nlookup b k\nadd b 3\nquery b\nlookup c j\nquery c",
        b"error: unknown name\n7\nerror: no such name\nerror: unknown name\n",
    ),
    (
        Console::Space,
        2,
        b"new a 0\nshare a 1\nshare a 1\nshare a 2\nunshare a 1\nunshare a 1\ndrop a\nunshare a 0",
        b"error: taken\nerror: no such locality\nerror: no such name\nerror: no such name\n",
    ),
    // Names of 32 and of 33 letters.
    (
        Console::Space,
        2,
        b"new a2345678901234567890123456789012 0\nquery a2345678901234567890123456789012\nnew a23456789012345678901234567890123 0\nnew 9_Z 1\nwhere 9_Z\nnew - 0\nregister 9_Z k!",
        b"0\nerror: bad name\n1\nerror: bad name\nerror: bad name\n",
    ),
    // Numbers and counts.
    (
        Console::Space,
        2,
        b"new a 1\nadd a 9223372036854775807\nadd a 1\nadd a +1\nadd a 9223372036854775808\nadd a --1\nadd a -\nquery a\nadd a -9223372036854775808\nadd a 007\nquery a",
        b"error: overflow\nerror: bad number\nerror: bad number\nerror: bad number\nerror: bad number\n9223372036854775807\n6\n",
    ),
    (
        Console::Space,
        2,
        b"latch w 0 1000001\nbarrier w 0 101\nlatch w 0 -1\nbarrier w 0 0\nlatch w 0 1000000\nbarrier b 0 100",
        b"error: bad number\nerror: bad number\nerror: bad number\nerror: bad number\n",
    ),
    // One locality, and three.
    (
        Console::Space,
        1,
        b"new a 0\nadd a 7\nwhere a\nquery a\nlocalities\nnew b 1\nshare a 0\nshare a 1\nunshare a 0",
        b"0\n7\n1\nerror: no such locality\nerror: no such locality\n",
    ),
    (
        Console::Space,
        3,
        b"new a 2\nadd a -4\nwhere a\nquery a\nshare a 1\nshare a 3\nlocalities\nregister a k\ndrop a\nlookup b k\nquery b\nnew c 3",
        b"2\n-4\nerror: no such locality\n3\n-4\nerror: no such locality\n",
    ),
    // Commands, and lines that are none.
    (
        Console::Space,
        2,
        b"help\nhelp me\n\n \t\nsum\nquit now\nadd a\nadd a 1 2\nopen",
        b"commands: new, add, query, move, where, drop, share, unshare, register, lookup, unregister, names, localities, promise, channel, latch, barrier, put, get, close, down, wait, arrive, hold, turn, drain, audit, counter, help, quit\nerror: bad command\nerror: bad command\nerror: bad command\nerror: bad command\nerror: bad command\nerror: bad command\n",
    ),
    // Two causes: the shape comes first, then the arguments from the left, then what cannot move.
    (
        Console::Space,
        2,
        b"new a 1\nadd a! 1 2\nnew a! x\nnew a x\nnew b x\nnew b -1\nnew b 00\nadd nope x\nadd a! x",
        b"error: bad command\nerror: bad name\nerror: name in use\nerror: no such locality\nerror: no such locality\nerror: unknown name\nerror: bad name\n",
    ),
    (
        Console::Space,
        2,
        b"new a 1\nregister nope k!\nregister a k!\nlookup a k!\nlookup c k!\nshare nope 9\nshare a x\nunshare a! 9\nunshare nope 9",
        b"error: unknown name\nerror: bad name\nerror: name in use\nerror: bad name\nerror: unknown name\nerror: no such locality\nerror: bad name\nerror: no such locality\n",
    ),
    (
        Console::Space,
        2,
        b"latch w 9 0\nlatch w 0 0\nlatch w 0 1\nmove w 9\nmove nope 9\nmove w 1\nadd w x\nbarrier w 0 x",
        b"error: no such locality\nerror: bad number\nerror: no such locality\nerror: unknown name\nerror: not movable\nerror: bad number\nerror: name in use\n",
    ),
    // The accumulator's console.
    (
        Console::Accumulator,
        2,
        b"add 5\nadd 10\nquery\nadd 2\nquery",
        b"15\n17\n",
    ),
    (
        Console::Accumulator,
        1,
        b"add 9223372036854775807\nadd 1\nquery\nreset\nquery\nadd x\nsum\nadd\nopen",
        b"error: overflow\n9223372036854775807\n0\nerror: bad number\nerror: bad command\nerror: bad command\nerror: bad command\n",
    ),
    (
        Console::Accumulator,
        3,
        b"help\nadd +1\nadd 9223372036854775808\nadd \xff\n \t\n\nquery 1\nhelp x\nadd -3\n query\t",
        b"commands: reset, add [amount], query, help, quit\nerror: bad number\nerror: bad number\nerror: bad number\nerror: bad command\nerror: bad command\n-3\n",
    ),
    (Console::Accumulator, 64, b"add 1\nquery", b"1\n"),
    // Which bytes a name may have.
    (
        Console::Space,
        2,
        b"new a -0\nwhere a\nnew z{ 0\nnew a@ 0\nnew a[ 0\nnew a/ 0\nnew a: 0\nnew zZ 1\nwhere zZ",
        b"0\nerror: bad name\nerror: bad name\nerror: bad name\nerror: bad name\nerror: bad name\n1\n",
    ),
    // All who wait are told, a barrier works again, and a shelf forgets one of two.
    (
        Console::Space,
        2,
        b"channel c 1\nget c\nget c\nclose c\nget c",
        b"error: closed\nerror: closed\nerror: closed\n",
    ),
    (
        Console::Space,
        2,
        b"barrier b 0 2\narrive b\narrive b\narrive b\narrive b",
        b"released\nreleased\nreleased\nreleased\n",
    ),
    (
        Console::Space,
        2,
        b"new a 1\nnew b 1\nshare a 0\nshare b 0\nunshare a 0\nunshare b 0\nunshare b 0",
        b"error: no such name\n",
    ),
];

/// Sessions in which objects move: they keep what they hold, and all their names, and stand where the last move left them.
const MOVING_ROWS: &[Row] = &[
    (Console::Space, 2, b"new a 1\nmove a 1\nwhere a", b"1\n"),
    (
        Console::Space,
        3,
        b"new a 1\nadd a 5\nmove a 2\nquery a\nwhere a\nadd a 1\nmove a 0\nquery a\nwhere a",
        b"5\n2\n6\n0\n",
    ),
    (
        Console::Space,
        3,
        b"new a 0\nadd a 4\nmove a 2\nmove a 0\nwhere a\nquery a\nlocalities",
        b"0\n4\n3\n",
    ),
    (
        Console::Space,
        2,
        b"new a 1\nnew a 1\nadd b 1\nnew c 2\nmove a 9\nwhere a",
        b"error: name in use\nerror: unknown name\nerror: no such locality\nerror: no such locality\n1\n",
    ),
    // Kept by a shelf and by a key while it moves, and called by a name that is looked up.
    (
        Console::Space,
        3,
        b"new a 1\nadd a 3\nshare a 2\nregister a k\nmove a 0\ndrop a\nquery a\nlookup b k\nadd b 3\nmove b 2\nquery b\nwhere b\nunshare a 2\nunregister k\nwhere b\nmove b\nmove b x\nmove c 0\nmove! b 0",
        b"error: unknown name\n6\n2\n2\nerror: bad command\nerror: no such locality\nerror: unknown name\nerror: bad command\n",
    ),
    // Control objects and what is no object's name do not move.
    (
        Console::Space,
        4,
        b"promise p 3\nget p\nmove p 0\nwhere p\nput p 7\nbarrier b 1 1\nmove b 2\nmove b 4\nwhere b",
        b"error: not movable\n3\n7\nerror: not movable\nerror: no such locality\n1\n",
    ),
];

/// The rows in which nothing moves. What each prints is the text of the plain space.
pub fn rows() -> &'static [Row]
    ensures many { length result.now ≡ 29 }
    ensures plain { AllByRecursion (λ row. plain_text row.0 row.1 row.2.now ≡ row.3.now) result.now }
{
    ROWS
}

/// The rows in which objects move. What each prints is the text of the plain space.
pub fn moving_rows() -> &'static [Row]
    ensures many { length result.now ≡ 6 }
    ensures plain { AllByRecursion (λ row. plain_text row.0 row.1 row.2.now ≡ row.3.now) result.now }
{
    MOVING_ROWS
}
