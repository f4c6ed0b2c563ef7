//! Event lines of several connections, what is printed of what they were answered, and their first faults.
use crate::checks::check;
use crate::program::devices::Manner;
use crate::program::runs::{QUIET, Run, comes_to_that};

const WORDS: &str = "s3d replay --keys keys --events";

// The same with first faults told.
const WITH_FAULTS: &str = "s3d replay --keys keys --events --faults";

// Lines that are right.
const RIGHT: Run = Run {
    name: "a connection that ends",
    words: WORDS,
    given: b"moments 0 1369353600\nend 0",
    written: b"0 \n",
    ..QUIET
};

// A line that is wrong.
const WRONG: Run = Run {
    name: "an odd digit",
    words: WORDS,
    given: b"moments 0 1\npiece 0 4",
    status: 1,
    said: "bad event line 2",
    ..QUIET
};

static RUNS: [Run; 13] = [
    Run {
        name: "no line",
        given: b"",
        written: b"",
        ..RIGHT
    },
    RIGHT,
    // The tables have room where no bucket is named, and maps always.
    Run {
        name: "records in maps",
        words: "s3d replay --keys keys --events --records map --bucket pail",
        ..RIGHT
    },
    Run {
        name: "records in full tables",
        words: "s3d replay --keys keys --events --records sql --bucket pail",
        written: b"",
        status: 1,
        said: "out of memory",
        ..RIGHT
    },
    Run {
        name: "a slow input",
        input: Manner::Halting,
        ..RIGHT
    },
    // `GET / HTTP/1.1`, `Bad Name: x` and an empty line come to the second of two connections, at the moment 0.
    Run {
        name: "a malformed head",
        given: b"moments 1 0\npiece 1 474554202f20485454502f312e310d\npiece 1 0a426164204e616d653a20780d0a0d0a\n",
        written: b"0 \n1 485454502f312e31203430302042616420526571756573740d0a446174653a205468752c203031204a616e2031\
    3937302030303a30303a303020474d540d0a436f6e6e656374696f6e3a20636c6f73650d0a782d616d7a2d7265\
    71756573742d69643a20303030303030303030303030303030300d0a436f6e74656e742d547970653a20617070\
    6c69636174696f6e2f6a736f6e0d0a436f6e74656e742d4c656e6774683a2035390d0a0d0a7b22436f6465223a\
    224d616c666f726d656448656164222c224d657373616765223a225468652068656164206973206d616c666f72\
    6d65642e227d\n",
        ..RIGHT
    },
    // The same where first faults are told: the first connection has none.
    Run {
        name: "the fault of a malformed head",
        words: WITH_FAULTS,
        given: b"moments 1 0\npiece 1 474554202f20485454502f312e310d\npiece 1 0a426164204e616d653a20780d0a0d0a\n",
        written: b"0 \n1 485454502f312e31203430302042616420526571756573740d0a446174653a205468752c203031204a616e2031\
    3937302030303a30303a303020474d540d0a436f6e6e656374696f6e3a20636c6f73650d0a782d616d7a2d7265\
    71756573742d69643a20303030303030303030303030303030300d0a436f6e74656e742d547970653a20617070\
    6c69636174696f6e2f6a736f6e0d0a436f6e74656e742d4c656e6774683a2035390d0a0d0a7b22436f6465223a\
    224d616c666f726d656448656164222c224d657373616765223a225468652068656164206973206d616c666f72\
    6d65642e227d\nrefused 1 0 MalformedHead\n",
        ..RIGHT
    },
    Run {
        name: "no fault",
        words: WITH_FAULTS,
        ..RIGHT
    },
    WRONG,
    Run {
        name: "an odd digit where faults are told",
        words: WITH_FAULTS,
        ..WRONG
    },
    Run {
        name: "a bad line behind a malformed head",
        given: b"moments 0 0\npiece 0 474554202f20485454502f312e310d0a426164204e616d653a20780d0a0d0a\nstop 0\n",
        said: "bad event line 3",
        ..WRONG
    },
    Run {
        name: "moments of a connection that was named",
        given: b"end 0\nmoments 1 0\nmoments 0 0\nend",
        said: "bad event line 3",
        ..WRONG
    },
    Run {
        name: "a failing input",
        input: Manner::Broken,
        said: "input failed",
        ..WRONG
    },
];

#[test]
fn event_lines(rt: HostRuntime) {
    for run in &RUNS {
        check(&rt, comes_to_that(&rt, rt.alloc(), run), run.name);
    }
}
