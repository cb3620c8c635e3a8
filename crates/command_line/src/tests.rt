//! The words that the program takes, with what they say, and those that it refuses.
use crate::words::{DeviceWord, Plan, read_words};
use std::alloc::{AllocError, Global};
use std::test::Fail;

const SEED: [u8; 32] = [
    0x00, 0x11, 0x22, 0x33, 0x44, 0x55, 0x66, 0x77, 0x88, 0x99, 0xaa, 0xbb, 0xcc, 0xdd, 0xee, 0xff,
    0x10, 0x32, 0x54, 0x76, 0x98, 0xba, 0xdc, 0xfe, 0x01, 0x23, 0x45, 0x67, 0x89, 0xab, 0xcd, 0xef,
];

// That seed, in lower and in upper case, and behind its option; and a path of 100 bytes, by itself
// and behind its option, and one of 101 bytes.
const LOWER: &str = "memory:00112233445566778899aabbccddeeff1032547698badcfe0123456789abcdef";

const UPPER: &str = "memory:00112233445566778899AABBCCDDEEFF1032547698BADCFE0123456789ABCDEF";

const BEHIND: &str =
    "--device=memory:00112233445566778899aabbccddeeff1032547698badcfe0123456789abcdef";

const LONG: &str = "/run/tabrmd/000000000000000000000000000000000000000000000000\
    000000000000000000000000000000000.sock.0";

const LONG_BEHIND: &str = "--socket=/run/tabrmd/000000000000000000000000000000000000000\
    000000000000000000000000000000000000000000.sock.0";

const LONGER_BEHIND: &str = "--socket=/run/tabrmd/000000000000000000000000000000000000000\
    000000000000000000000000000000000000000000.sock.01";

// Words with `|` between two, and what they say: the command, the path, the connections, the limit,
// whether there is an audit text, the start and the lines.
const TAKEN: &str = "\
    run|D|--journal-bytes|8192 => Run <> 0 8192 false 0 0\n\
    run|D|--journal-bytes=8192 => Run <> 0 8192 false 0 0\n\
    run|D|--journal-bytes|1073741824 => Run <> 0 1073741824 false 0 0\n\
    run|D|--journal-bytes=1073741824 => Run <> 0 1073741824 false 0 0\n\
    run|D|--journal-bytes|08192 => Run <> 0 8192 false 0 0\n\
    run|D|--journal-bytes=08192 => Run <> 0 8192 false 0 0\n\
    run|D|--journal-bytes|00000000000000008192 => Run <> 0 8192 false 0 0\n\
    run|D|--journal-bytes=00000000000000008192 => Run <> 0 8192 false 0 0\n\
    run|D|--journal-bytes|00000000001073741824 => Run <> 0 1073741824 false 0 0\n\
    run|D|--journal-bytes=00000000001073741824 => Run <> 0 1073741824 false 0 0\n\
    run|--device|M => Run <> 0 16777216 false 0 0\n\
    run|--device|U => Run <> 0 16777216 false 0 0\n\
    run|D => Run <> 0 16777216 false 0 0\n\
    run|--device|M|--audit => Run <> 0 16777216 true 0 0\n\
    run|--audit|--device|M => Run <> 0 16777216 true 0 0\n\
    run|--audit|D => Run <> 0 16777216 true 0 0\n\
    run|--journal-bytes|8192|D => Run <> 0 8192 false 0 0\n\
    run|D|--journal-bytes|9000 => Run <> 0 9000 false 0 0\n\
    run|--device|M|--journal-bytes=9000 => Run <> 0 9000 false 0 0\n\
    run|--audit|--journal-bytes=9000|--device|M => Run <> 0 9000 true 0 0\n\
    run|--journal-bytes|9000|--device|M|--audit => Run <> 0 9000 true 0 0\n\
    run|D|--audit|--journal-bytes=9000 => Run <> 0 9000 true 0 0\n\
    run|D|--no-journal => Run <> 0 288230376151711744 false 0 0\n\
    run|--no-journal|--device|M => Run <> 0 288230376151711744 false 0 0\n\
    workload|D|--start|7|--lines|5000 => Workload <> 0 16777216 false 7 5000\n\
    workload|--lines=1|--start=0|--device|M => Workload <> 0 16777216 false 0 1\n\
    workload|--audit|--lines=100000|--journal-bytes=8192|--start|7|D => \
    Workload <> 0 8192 true 7 100000\n\
    workload|D|--start=18446744073709551615|--lines=00000000000000000009 => \
    Workload <> 0 16777216 false 18446744073709551615 9\n\
    serve|D|--socket=/run/t.sock|--connections=4 => Serve </run/t.sock> 4 16777216 false 0 0\n\
    serve|--connections|4|--audit|--socket|/run/t.sock|--device|M|--journal-bytes|8192 => \
    Serve </run/t.sock> 4 8192 true 0 0\n\
    serve|D|--socket=/run/t.sock|--no-journal|--connections=4 => \
    Serve </run/t.sock> 4 288230376151711744 false 0 0\n\
    serve|D|--socket|a|--connections=1 => Serve <a> 1 16777216 false 0 0\n\
    serve|D|--socket=-|--connections=256 => Serve <-> 256 16777216 false 0 0\n\
    serve|D|--socket=-|--connections=257 => Serve <-> 257 16777216 false 0 0\n\
    serve|D|--socket=-|--connections=4294967295 => \
        Serve <-> 4294967295 16777216 false 0 0\n\
    serve|D|--socket=a=b|--connections=0256 => Serve <a=b> 256 16777216 false 0 0\n\
    serve|D|--socket|/tmp/ä €.sock|--connections=2 => \
    Serve </tmp/ä €.sock> 2 16777216 false 0 0\n\
    serve|D|--socket|P|--connections=2 => Serve <P> 2 16777216 false 0 0\n\
    serve|Q|D|--connections=2 => Serve <P> 2 16777216 false 0 0\n\
";

// Words that are refused: no command, another one, or none in front; no device, or no value; an
// option twice; a value where there is none; other words.
const REFUSED: &str = "\
    \n\
    run \n\
    Run|D\n\
    workload|D\n\
    serve|D\n\
    check|D\n\
    check|--device|tpm:/a\n\
    check|--device=unix:/a\n\
    D\n\
    D|run\n\
    --device|M|run\n\
    --audit|run|D\n\
    --help\n\
    --version\n\
    run\n\
    run|--audit\n\
    run|--journal-bytes|8192\n\
    run|--device\n\
    run|--audit|--device\n\
    run|--device|--audit\n\
    run|--device=\n\
    run|D|--journal-bytes\n\
    run|D|--journal-bytes|--audit\n\
    run|D|--journal-bytes=\n\
    run|D|D\n\
    run|D|--device|M\n\
    run|--device|M|--device|M\n\
    run|D|--audit|--audit\n\
    run|--audit|D|--audit\n\
    run|D|--journal-bytes=8192|--journal-bytes=8192\n\
    run|--journal-bytes|8192|D|--journal-bytes|9000\n\
    run|D|--no-journal|--no-journal\n\
    run|D|--no-journal|--audit\n\
    run|--audit|D|--no-journal\n\
    run|D|--no-journal|--journal-bytes=8192\n\
    run|--journal-bytes|8192|D|--no-journal\n\
    run|D|--journal-bytes=288230376151711744\n\
    run|D|--no-journal=\n\
    run|D|--no-journal=true\n\
    run|D|--no-journal|true\n\
    run|D|no-journal\n\
    run|--no-journal\n\
    run|--device|--no-journal\n\
    run|D|--audit=\n\
    run|D|--audit=true\n\
    run|D|--audit|true\n\
    run|D|\n\
    run|D|-\n\
    run|D|--\n\
    run|--|D\n\
    run|D|run\n\
    run|M\n\
    run|M|--device\n\
    run|D|--help\n\
    run|D|--aud\n\
    run|--dev|M\n\
    run|D|--start=0|--lines=1\n\
    run|D|=--audit\n\
    run|--device=|M\n\
";

// Words with devices behind a socket, the sort of these, and their paths.
const SOCKETS: &str = "\
    run|--device|unix:/a => unix /a\n\
    run|--device=unix:/a=b => unix /a=b\n\
    run|--device|unix:- => unix -\n\
    run|--device|unix:tpm:/a => unix tpm:/a\n\
    run|--device|tpm:/a => tpm /a\n\
    run|--device=tpm:/a=b => tpm /a=b\n\
    run|--device|tpm:unix:/a => tpm unix:/a\n\
    workload|--device=unix:/a|--start=7|--lines=20 => unix /a\n\
    workload|--start=7|--device|tpm:/a|--lines=20 => tpm /a\n\
    serve|--device|unix:/a:b|--socket=/run/t.sock|--connections=4 => unix /a:b\n\
    serve|--device=tpm:-|--socket=/run/t.sock|--connections=4 => tpm -\n\
";

// Devices that are none.
const SEEDS: &str = "\
    run|--device|memory:00112233445566778899aabbccddeeff1032547698badcfe0123456789abcde\n\
    run|--device|memory:00112233445566778899aabbccddeeff1032547698badcfe0123456789abcdef0\n\
    run|--device|memory:00112233445566778899aabbccddeeff1032547698badcfe0123456789abcdef01\n\
    run|--device|memory:00112233445566778899aabbccddeeff1032547698badcfe0123456789abcdeg\n\
    run|--device|Memory:00112233445566778899aabbccddeeff1032547698badcfe0123456789abcdef\n\
    run|--device|00112233445566778899aabbccddeeff1032547698badcfe0123456789abcdef\n\
    run|--device|memory:\n\
    run|--device|unix:\n\
    run|--device=unix:\n\
    run|--device|Unix:/a\n\
    run|--device|unix/a\n\
    run|--device|tpm:\n\
    run|--device=tpm:\n\
    run|--device|Tpm:/a\n\
    run|--device|tpm/a\n\
    run|--device|tpm2:/a\n\
    run|--device|tcp:/a\n\
    run|--device|\n\
    run|--device|-\n\
    run|--device|memory:00\n\
";

// Words of a workload, of which an option or its value is missing, given twice or out of range; and
// its options on a run.
const WORKLOADS: &str = "\
    workload\n\
    workload|D|--start=7\n\
    workload|D|--lines=20\n\
    workload|--start=7|--lines=20\n\
    workload|D|--start|--lines=20\n\
    workload|D|--start=7|--lines\n\
    workload|D|--start=7|--lines=\n\
    workload|D|--start=|--lines=20\n\
    workload|D|--start=7|--start=7|--lines=20\n\
    workload|D|--start=7|--lines=20|--lines|20\n\
    workload|D|D|--start=7|--lines=20\n\
    workload|D|--audit|--start=7|--lines=20|--audit\n\
    workload|D|--start=18446744073709551616|--lines=20\n\
    workload|D|--start=-1|--lines=20\n\
    workload|D|--start=000000000000000000007|--lines=20\n\
    workload|D|--start=7|--lines=0\n\
    workload|D|--start=7|--lines=100001\n\
    run|D|--start=7\n\
    run|D|--lines|20\n\
";

// Words of `serve`, of which an option or its value is missing, given twice or out of range;
// options of a workload; and its options on other commands.
const SERVED: &str = "\
    serve\n\
    serve|--socket=/run/t.sock|--connections=4\n\
    serve|D|--connections=4\n\
    serve|D|--socket=/run/t.sock\n\
    serve|D|--connections=4|--socket\n\
    serve|D|--socket=/run/t.sock|--connections\n\
    serve|D|--socket=|--connections=4\n\
    serve|D|--socket||--connections=4\n\
    serve|D|R|--connections=4\n\
    serve|D|--socket|-|--connections=4\n\
    serve|D|--socket|--connections=4\n\
    serve|D|--socket=/run/t.sock|--connections=0\n\
    serve|D|--socket=/run/t.sock|--connections=4294967296\n\
    serve|D|--socket=/run/t.sock|--connections|4294967297\n\
    serve|D|--socket=/run/t.sock|--connections=\n\
    serve|D|--socket=/run/t.sock|--connections=+4\n\
    serve|D|D|--socket=/run/t.sock|--connections=4\n\
    serve|D|--socket=/run/t.sock|--socket=/run/t.sock|--connections=4\n\
    serve|D|--socket=/run/t.sock|--connections=4|--connections=4\n\
    serve|D|--socket=/run/t.sock|--connections=4|--journal-bytes=8192|--journal-bytes=8192\n\
    serve|D|--audit|--socket=/run/t.sock|--connections=4|--audit\n\
    serve|D|--socket=/run/t.sock|--connections=4|--start=7\n\
    serve|D|--socket=/run/t.sock|--connections=4|--lines=20\n\
    serve|D|--socket=/run/t.sock|--connections=4|--start=7|--lines=20\n\
    run|D|--socket=/run/t.sock\n\
    run|D|--connections=4\n\
    run|D|--socket=/run/t.sock|--connections=4\n\
    workload|D|--start=7|--lines=20|--socket=/run/t.sock\n\
    workload|D|--start=7|--lines=20|--connections=4\n\
";

// Limits that are out of range or no number of 1 to 20 digits.
const NUMBERS: &str = "\
    run|D|--journal-bytes|8191\n\
    run|D|--journal-bytes=8191\n\
    run|D|--journal-bytes|1073741825\n\
    run|D|--journal-bytes=1073741825\n\
    run|D|--journal-bytes|0\n\
    run|D|--journal-bytes=0\n\
    run|D|--journal-bytes|000000000000000008192\n\
    run|D|--journal-bytes=000000000000000008192\n\
    run|D|--journal-bytes|00000000001073741825\n\
    run|D|--journal-bytes=00000000001073741825\n\
    run|D|--journal-bytes|000000000001073741824\n\
    run|D|--journal-bytes=000000000001073741824\n\
    run|D|--journal-bytes|18446744073709551615\n\
    run|D|--journal-bytes=18446744073709551615\n\
    run|D|--journal-bytes|18446744073709551616\n\
    run|D|--journal-bytes=18446744073709551616\n\
    run|D|--journal-bytes|18446744073709559808\n\
    run|D|--journal-bytes=18446744073709559808\n\
    run|D|--journal-bytes|18446744073709568000\n\
    run|D|--journal-bytes=18446744073709568000\n\
    run|D|--journal-bytes|99999999999999999999\n\
    run|D|--journal-bytes=99999999999999999999\n\
    run|D|--journal-bytes|\n\
    run|D|--journal-bytes|+8192\n\
    run|D|--journal-bytes=+8192\n\
    run|D|--journal-bytes|-8192\n\
    run|D|--journal-bytes=-8192\n\
    run|D|--journal-bytes| 8192\n\
    run|D|--journal-bytes= 8192\n\
    run|D|--journal-bytes|8192 \n\
    run|D|--journal-bytes=8192 \n\
    run|D|--journal-bytes|8_192\n\
    run|D|--journal-bytes=8_192\n\
    run|D|--journal-bytes|8,192\n\
    run|D|--journal-bytes=8,192\n\
    run|D|--journal-bytes|8192.0\n\
    run|D|--journal-bytes=8192.0\n\
    run|D|--journal-bytes|0x2000\n\
    run|D|--journal-bytes=0x2000\n\
    run|D|--journal-bytes|8192k\n\
    run|D|--journal-bytes=8192k\n\
    run|D|--journal-bytes|/192\n\
    run|D|--journal-bytes=/192\n\
    run|D|--journal-bytes|819:\n\
    run|D|--journal-bytes=819:\n\
    run|D|--journal-bytes|=8192\n\
    run|D|--journal-bytes==8192\n\
";

// The word that one in these lists stands for.
fn spelled(word: &str) -> &str {
    match word {
        "M" => LOWER,
        "U" => UPPER,
        "D" => BEHIND,
        "P" => LONG,
        "Q" => LONG_BEHIND,
        "R" => LONGER_BEHIND,
        _ => word,
    }
}

// The words of a line.
fn words_of(alloc: Global, line: &str) -> Result<Vec<String>, AllocError> {
    let mut words = Vec::new(alloc);
    for word in line.split('|') {
        words.push(String::from_str(alloc, spelled(word))?)?;
    }
    Ok(words)
}

// What the words of a line say.
fn told(alloc: Global, line: &str) -> Result<String, AllocError> {
    match read_words(&words_of(alloc, line)?) {
        Ok(plan) => text_of(alloc, &plan),
        Err(_) => String::from_str(alloc, "refused"),
    }
}

// A path as it stands in the list.
fn shortened(path: &str) -> &str {
    if path == LONG { "P" } else { path }
}

// A plan over the device of that seed, as it stands in the list. Of one over another device, its
// sort and the path of its socket.
fn text_of(alloc: Global, plan: &Plan) -> Result<String, AllocError> {
    match plan.device {
        DeviceWord::Memory(seed) => {
            if seed != SEED {
                return String::from_str(alloc, "another seed");
            }
        }
        DeviceWord::Unix(path) => {
            let path = path.as_str();
            return format!(in alloc; "unix {path}");
        }
        DeviceWord::Tpm(path) => {
            let path = path.as_str();
            return format!(in alloc; "tpm {path}");
        }
    }
    let (job, connections, limit) = (plan.job, plan.connections, plan.limit);
    let (audit, start, lines) = (plan.audit, plan.start, plan.lines);
    let path = shortened(plan.socket.as_str());
    format!(in alloc; "{job:?} <{path}> {connections} {limit} {audit} {start} {lines}")
}

#[test]
fn words_that_are_taken(rt: HostRuntime) -> Result<(), Fail> {
    for lines in [TAKEN, SOCKETS] {
        for line in lines.lines() {
            let (words, wanted) = line.split_once(" => ").ok_or("words, and what they say")?;
            assert_eq!(rt; told(rt.alloc(), words)?.as_str(), wanted, "{words}");
        }
    }
    Ok(())
}

#[test]
fn words_that_are_refused(rt: HostRuntime) -> Result<(), Fail> {
    for lines in [REFUSED, SEEDS, WORKLOADS, SERVED, NUMBERS] {
        for line in lines.lines() {
            assert_eq!(rt; told(rt.alloc(), line)?.as_str(), "refused", "{line}");
        }
    }
    Ok(())
}
