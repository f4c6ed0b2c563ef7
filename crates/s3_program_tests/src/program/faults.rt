//! Wrong words, wrong settings and keys, and devices that fail or are slow.
use crate::checks::check;
use crate::program::devices::Manner;
use crate::program::runs::{QUIET, Run, comes_to_that};
use std::alloc::Global;
use std::sync::Wait;

// A run on the words of a row, and on no input, has this status and tells what stands behind the row's bar.
fn is_row<R: Wait>(rt: &R, alloc: Global, row: &str, status: u8) -> bool {
    match row.split_once('|') {
        Some((words, said)) => {
            let run = Run {
                words,
                status,
                said,
                ..QUIET
            };
            comes_to_that(rt, alloc, &run)
        }
        None => false,
    }
}

// Words, and a part of what is told then. A semicolon stands between two rows: one text costs less to prove than a
// table.
const USAGES: &str = "\
    |Usage: s3d <COMMAND>\n;\
    s3d|Usage: s3d <COMMAND>\n;\
    s3d --help|Usage: s3d <COMMAND>\n;\
    s3d replay|not provided:\n  --keys <FILE>\n;\
    s3d replay --help|Usage: s3d replay [OPTIONS] --keys <FILE>\n;\
    s3d replay --keys keys --unknown|error: unexpected argument '--unknown' found\n;\
    s3d replay --keys keys a:b|error: unexpected argument 'a:b' found\n;\
    s3d replay --keys keys --moment 0 --log x|error: unexpected argument '--log' found\n;\
    s3d replay --keys keys --moment 0 --data|error: a value is required for '--data <FOLDER>' but none was supplied\n;\
    s3d sign --help|--host <H> [NAME:VALUE]...\n;\
    s3d sign --keys keys --id id --moment 0 --method GET --target /|not provided:\n  --host <H>\n;\
    s3d sign --keys keys --id id --moment 0 --method GET --target / --host h --log x|error: unexpected argument '--log' found\n;\
    s3d sign --keys keys --id id --moment 0 --method GET --target / --host h --records map|error: unexpected argument '--records' found\n;\
    s3d serve --help|Usage: s3d serve [OPTIONS] --keys <FILE> --listen <ADDR>\n;\
    s3d serve --keys keys|not provided:\n  --listen <ADDR>\n;\
    s3d serve --keys keys --listen localhost:0 --events|error: unexpected argument '--events' found\n;\
    s3d serve --keys keys --listen localhost:0 --log|error: a value is required for '--log <FILE>' but none was supplied\n;\
    s3d --version|s3d 0.2.0\n;\
    s3d remove|error: unrecognized subcommand 'remove'\n";

// Where two things are wrong the first in order is told.
const FAULTS: &str = "\
    s3d replay --keys keys|bad setting;\
    s3d replay --keys shelf --moment 0 --region US|cannot read shelf;\
    s3d replay --keys keys --moment 12x|bad setting;\
    s3d replay --keys keys --moment 0 --events|bad setting;\
    s3d replay --keys shelf --moment 0 --events|bad setting;\
    s3d replay --keys shelf --faults|bad setting;\
    s3d replay --keys shelf --moment 0 --faults|bad setting;\
    s3d replay --keys shelf --moment 0 --events --faults|bad setting;\
    s3d replay --keys keys --events --region US|bad setting;\
    s3d replay --keys shelf --events|cannot read shelf;\
    s3d replay --keys shelf --faults --events|cannot read shelf;\
    s3d replay --keys keys --moment |bad setting;\
    s3d replay --keys keys --moment +12|bad setting;\
    s3d replay --keys keys --moment 0000000000000|bad setting;\
    s3d replay --keys keys --moment 253402300800|bad setting;\
    s3d replay --keys keys --moment 0 --bucket Pail|bad setting;\
    s3d replay --keys keys --moment 0 --region US|bad setting;\
    s3d replay --keys keys --moment 0 --min-part 1e3|bad setting;\
    s3d replay --keys keys --moment 0 --body-limit 67108865|bad setting;\
    s3d replay --keys keys --moment 0 --dialect s3 --body-limit 5368709121|bad setting;\
    s3d replay --keys shelf --moment 0 --records maps|bad setting;\
    s3d replay --keys shelf --moment 0 --records |bad setting;\
    s3d replay --keys shelf --events --records SQL|bad setting;\
    s3d replay --keys shelf --moment 0 --records sql|cannot read shelf;\
    s3d replay --keys keys --data held|bad setting;\
    s3d replay --keys shelf --moment 0 --data held --records map|bad setting;\
    s3d replay --keys shelf --events --data held --records map|bad setting;\
    s3d replay --keys shelf --moment 0 --data held --records sql|cannot read shelf;\
    s3d replay --keys keys --events --data held --region US|bad setting;\
    s3d replay --keys keys --moment 0 --data held|cannot use held: held;\
    s3d replay --keys keys --events --data held --records sql|cannot use held: held;\
    s3d replay --keys keys --moment 0 --data foreign|cannot use foreign: not a store;\
    s3d replay --keys keys --events --faults --data later|cannot use later: later form;\
    s3d replay --keys keys --moment 0 --data damaged|cannot use damaged: damaged;\
    s3d replay --keys keys --events --data full|cannot use full: no room;\
    s3d replay --keys keys --moment 0 --data broken|cannot use broken: failed;\
    s3d replay --keys keys --moment 0 --data memory|out of memory;\
    s3d replay --keys none --moment 0|bad setting;\
    s3d replay --keys shelf --moment 0|cannot read shelf;\
    s3d replay --keys no-space --moment 0|bad keys line 2;\
    s3d replay --keys no-id --moment 0|bad keys line 2;\
    s3d replay --keys no-secret --moment 0|bad keys line 2;\
    s3d replay --keys long-secret --moment 0|bad keys line 2;\
    s3d replay --keys two-spaces --moment 0|bad keys line 3;\
    s3d replay --keys twice --moment 0|bad keys line 2;\
    s3d replay --keys empty-line --moment 0|bad keys line 2;\
    s3d replay --keys comma --moment 0|bad keys line 3;\
    s3d sign --keys keys --id id --moment 12x --method GET --target / --host h|bad setting;\
    s3d sign --keys keys --id id --moment 253402300800 --method GET --target / --host h|bad setting;\
    s3d sign --keys none --id id --moment 0 --method GET --target / --host h|bad setting;\
    s3d sign --keys shelf --id id --moment 0 --method GET --target / --host h|cannot read shelf;\
    s3d sign --keys twice --id id --moment 0 --method GET --target / --host h|bad keys line 2;\
    s3d sign --keys keys --id secret --moment 0 --method GET --target / --host h|bad setting;\
    s3d sign --keys keys --id id --moment 0 --method G/T --target / --host h|bad setting;\
    s3d sign --keys keys --id id --moment 0 --method GET --target k --host h|bad setting;\
    s3d sign --keys keys --id id --moment 0 --method GET --target /%4 --host h|bad setting;\
    s3d sign --keys keys --id id --moment 0 --method GET --target / --host a\nb|bad setting;\
    s3d sign --keys keys --id id --moment 0 --method GET --target / --host h range|bad setting;\
    s3d sign --keys keys --id id --moment 0 --method GET --target / --host h a/b:c|bad setting;\
    s3d sign --keys keys --id id --moment 0 --method GET --target / --host h Host:other|bad setting;\
    s3d sign --keys keys --id id --moment 0 --method GET --target / --host h X-Amz-Date:now|bad setting;\
    s3d sign --keys keys --id id --moment 0 --method GET --target / --host h --body body|cannot read body;\
    s3d sign --keys keys --id id --moment 0 --method G/T --target / --host h --body body|cannot read body;\
    s3d sign --keys shelf --id id --moment 0 --method GET --target / --host h --region US|cannot read shelf;\
    s3d sign --keys shelf --id id --moment 0 --method GET --target / --host h --body-limit 67108865|cannot read shelf;\
    s3d sign --keys shelf --id id --moment 0 --method GET --target / --host h range|bad setting;\
    s3d sign --keys shelf --id secret --moment 0 --method GET --target / --host h|cannot read shelf;\
    s3d sign --keys keys --id secret --moment 0 --method GET --target / --host h --body body|bad setting;\
    s3d sign --keys shelf --id id --moment 0 --method GET --target / --host h --chunk 0|bad setting;\
    s3d sign --keys shelf --id id --moment 0 --method GET --target / --host h --chunk 67108865|bad setting;\
    s3d sign --keys shelf --id id --moment 0 --method GET --target / --host h --chunk 0x10|bad setting;\
    s3d sign --keys shelf --id id --moment 0 --method GET --target / --host h --chunk 0000000000003|bad setting;\
    s3d sign --keys shelf --id id --moment 0 --method GET --target / --host h --chunk 67108864|cannot read shelf;\
    s3d sign --keys keys --id id --moment 0 --method GET --target / --host h --chunk 3 content-encoding:gzip|bad setting;\
    s3d sign --keys shelf --id id --moment 0 --method GET --target / --host h --presign 0|bad setting;\
    s3d sign --keys shelf --id id --moment 0 --method GET --target / --host h --presign 604801|bad setting;\
    s3d sign --keys shelf --id id --moment 0 --method GET --target / --host h --presign 4294967297|bad setting;\
    s3d sign --keys shelf --id id --moment 0 --method GET --target / --host h --presign +60|bad setting;\
    s3d sign --keys shelf --id id --moment 0 --method GET --target / --host h --presign 0000000000060|bad setting;\
    s3d sign --keys shelf --id id --moment 0 --method GET --target / --host h --presign 000000000060|cannot read shelf;\
    s3d sign --keys shelf --id id --moment 0 --method GET --target / --host h --presign 604800|cannot read shelf;\
    s3d sign --keys shelf --id id --moment 0 --method GET --target / --host h --presign 60 --chunk 3|bad setting;\
    s3d sign --keys shelf --id id --moment 0 --method GET --target / --host h --presign 60 --chunk 3 --url|bad setting;\
    s3d sign --keys shelf --id id --moment 0 --method GET --target / --host h --url|bad setting;\
    s3d sign --keys shelf --id id --moment 0 --method GET --target / --host h --chunk 3 --url|bad setting;\
    s3d sign --keys shelf --id id --moment 0 --method GET --target / --host h --presign 604801 --url|bad setting;\
    s3d sign --keys shelf --id id --moment 0 --method GET --target / --host h --presign 1 --url|cannot read shelf;\
    s3d sign --keys keys --id id --moment 0 --method GET --target k --host h --presign 60|bad setting;\
    s3d sign --keys keys --id id --moment 0 --method GET --target k --host h --presign 60 --url|bad setting;\
    s3d sign --keys keys --id id --moment 0 --method GET --target / --host h --presign 60 Authorization:a|bad setting;\
    s3d sign --keys keys --id id --moment 0 --method GET --target / --host h --presign 60 Host:other|bad setting;\
    s3d sign --keys keys --id id --moment 0 --method GET --target / --host h --presign 60 --url host:h|bad setting;\
    s3d sign --keys keys --id id --moment 0 --method GET --target / --host h --presign 60 Content-Length:0|bad setting;\
    s3d sign --keys keys --id id --moment 0 --method PUT --target / --host h --presign 60 --url content-length:5|bad setting;\
    s3d sign --keys control --id i\x01d --moment 0 --method GET --target / --host h|bad setting;\
    s3d sign --keys control --id i\x01d --moment 0 --method GET --target / --host h --presign 60|bad setting;\
    s3d sign --keys control --id i\x01d --moment 0 --method GET --target / --host h --presign 60 --url|bad setting;\
    s3d sign --keys keys --id id --moment 0 --method GET --target /?X-Amz-Expires=60 --host h --presign 60|bad setting;\
    s3d sign --keys keys --id id --moment 0 --method G/T --target / --host h --presign 60 --body body|cannot read body;\
    s3d sign --keys keys --id id --moment 0 --method GET --target / --host h --presign 60 --url --body body|cannot read body;\
    s3d sign --keys keys --id id --moment 0 --method GET --target / --host h --chunk 3 --body body content-encoding:gzip|cannot read body";

#[test]
fn faults(rt: HostRuntime) {
    for row in USAGES.split(';') {
        check(&rt, is_row(&rt, rt.alloc(), row, 2), row);
    }
    for row in FAULTS.split(';') {
        check(&rt, is_row(&rt, rt.alloc(), row, 1), row);
    }
}

// A head that can't be read, and what it is answered at the moment 0.
const MALFORMED: &[u8] = b"GET / HTTP/1.1\r\nBad Name: x\r\n\r\n";

const MALFORMED_ANSWER: &[u8] = b"HTTP/1.1 400 Bad Request\r\n\
    Date: Thu, 01 Jan 1970 00:00:00 GMT\r\n\
    Connection: close\r\n\
    x-amz-request-id: 0000000000000000\r\n\
    Content-Type: application/json\r\n\
    Content-Length: 59\r\n\
    \r\n\
    {\"Code\":\"MalformedHead\",\"Message\":\"The head is malformed.\"}";

// A replay where all is as it should be.
const ABLE: Run = Run {
    name: "able devices",
    words: "s3d replay --keys keys --moment 0",
    given: MALFORMED,
    written: MALFORMED_ANSWER,
    ..QUIET
};

// The input fails.
const INPUT_FAILED: Run = Run {
    name: "a failing input",
    input: Manner::Broken,
    status: 1,
    written: b"",
    said: "input failed",
    ..ABLE
};

// The output fails.
const OUTPUT_FAILED: Run = Run {
    name: "a failing output",
    output: Manner::Broken,
    status: 1,
    written: b"",
    said: "output failed",
    ..ABLE
};

// There is no memory.
const OUT_OF_MEMORY: Run = Run {
    name: "no memory",
    status: 1,
    written: b"",
    said: "out of memory",
    ..ABLE
};

// The words of a signing.
const SIGN: &str = "s3d sign --keys keys --id id --moment 0 --method GET --target / --host h";

static RUNS: [Run; 20] = [
    ABLE,
    Run {
        name: "slow devices",
        input: Manner::Halting,
        output: Manner::Halting,
        ..ABLE
    },
    Run {
        name: "devices that would block",
        input: Manner::Blocking,
        output: Manner::Blocking,
        ..ABLE
    },
    // An empty connection.
    Run {
        name: "an empty connection",
        input: Manner::Unwilling,
        written: b"",
        ..ABLE
    },
    INPUT_FAILED,
    Run {
        name: "a failing input and slow errors",
        errors: Manner::Halting,
        ..INPUT_FAILED
    },
    Run {
        name: "a failing input and failing errors",
        errors: Manner::Broken,
        said: "",
        ..INPUT_FAILED
    },
    Run {
        name: "a failing input and unwilling errors",
        errors: Manner::Unwilling,
        said: "",
        ..INPUT_FAILED
    },
    OUTPUT_FAILED,
    Run {
        name: "a signing and a failing output",
        words: SIGN,
        input: Manner::Broken,
        ..OUTPUT_FAILED
    },
    Run {
        name: "an unwilling output",
        output: Manner::Unwilling,
        ..OUTPUT_FAILED
    },
    // It has all of the answer, but may not send it on.
    Run {
        name: "an output that can't be flushed",
        output: Manner::Unflushed,
        written: MALFORMED_ANSWER,
        ..OUTPUT_FAILED
    },
    Run {
        name: "an output without memory",
        output: Manner::Full,
        ..OUTPUT_FAILED
    },
    // Memory that the input lacks is a failure of the input.
    Run {
        name: "an input without memory",
        input: Manner::Full,
        ..INPUT_FAILED
    },
    Run {
        name: "files without memory",
        is_full: true,
        ..OUT_OF_MEMORY
    },
    // A folder that can't be used is told before the input is read.
    Run {
        name: "a held folder and a failing input",
        words: "s3d replay --keys keys --moment 0 --data held",
        said: "cannot use held: held",
        ..INPUT_FAILED
    },
    Run {
        name: "a held folder and failing event lines",
        words: "s3d replay --keys keys --events --data held",
        said: "cannot use held: held",
        ..INPUT_FAILED
    },
    // The tables have room where no bucket is named, and maps always.
    Run {
        name: "records in maps",
        words: "s3d replay --keys keys --moment 0 --bucket pail",
        ..ABLE
    },
    Run {
        name: "records in tables",
        words: "s3d replay --keys keys --moment 0 --records sql",
        ..ABLE
    },
    Run {
        name: "records in full tables",
        words: "s3d replay --keys keys --moment 0 --records sql --bucket pail",
        ..OUT_OF_MEMORY
    },
];

#[test]
fn devices(rt: HostRuntime) {
    for run in &RUNS {
        check(&rt, comes_to_that(&rt, rt.alloc(), run), run.name);
    }
}
