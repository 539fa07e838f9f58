//! Scripts, and what they mean.

mod faults;

use super::rows::expect_printed;
use call_script::*;
use event_text::{event_line, listener_line, script_line};
use mse_base::{OutOfMemory, Text};
use mse_calls::{Answer, Call, Rule};
use std::process::Abort;

/// The line of a fault that has a name.
fn named(rt: &(impl Abort + AllocGlobal), kind: &str, name: &str) -> String {
    format!(in rt.alloc(); "fault {kind} {name}\n").expect(rt, "memory")
}

/// The line of a fault that has a number.
fn numbered(rt: &(impl Abort + AllocGlobal), kind: &str, number: usize) -> String {
    format!(in rt.alloc(); "fault {kind} {number}\n").expect(rt, "memory")
}

fn fault_text(rt: &(impl Abort + AllocGlobal), fault: &ScriptFault) -> String {
    match fault {
        ScriptFault::NotToml => named(rt, "not", "toml"),
        ScriptFault::Key(name) => named(rt, "key", name.as_str()),
        ScriptFault::TooMany(key) => named(rt, "too many", key.name()),
        ScriptFault::Blob(n) => numbered(rt, "blob", *n),
        ScriptFault::Step(n) => numbered(rt, "step", *n),
        ScriptFault::Rule(n) => numbered(rt, "rule", *n),
    }
}

/// A script, or the line of its fault.
fn read(rt: &(impl Abort + AllocGlobal), script: &[u8]) -> Result<Script, String> {
    match read_script(rt.alloc(), script) {
        Ok(script) => Ok(script),
        Err(ScriptError::OutOfMemory) => Err(String::new(rt.alloc())),
        Err(ScriptError::Fault(fault)) => Err(fault_text(rt, &fault)),
    }
}

fn push(rt: &impl Abort, text: &mut String, more: &str) {
    text.push_str(more).expect(rt, "memory");
}

fn push_line(rt: &impl Abort, text: &mut String, line: Result<Text, OutOfMemory>) {
    let line = line.expect(rt, "memory");
    push(rt, text, line.as_str());
}

fn push_blob(rt: &impl Abort, text: &mut String, blob: &BlobText) {
    let pushed = match blob {
        BlobText::File(name) => write!(text, "file {}\n", name.as_str()),
        BlobText::Hex(bytes) => write!(text, "hex {:?}\n", bytes.as_slice()),
    };
    pushed.expect(rt, "memory");
}

fn push_step(rt: &(impl Abort + AllocGlobal), text: &mut String, step: &StepLine) {
    match step {
        StepLine::Call(call) => push_line(rt, text, script_line(rt.alloc(), call, &Answer::Done)),
        StepLine::Fire => push(rt, text, "fire\n"),
        StepLine::Work(k) => write!(text, "work {k}\n").expect(rt, "memory"),
        StepLine::Element => push(rt, text, "element\n"),
        StepLine::Drain => push(rt, text, "drain\n"),
    }
}

fn push_rule(rt: &(impl Abort + AllocGlobal), text: &mut String, rule: &Rule) {
    let (number, times, repeat) = (rule.listener, rule.times, rule.repeat);
    write!(text, "rule {number} {times} {repeat}\n").expect(rt, "memory");
    push_line(rt, text, event_line(rt.alloc(), &rule.on));
    for call in rule.calls.as_slice() {
        let line = listener_line(rt.alloc(), number, call, &Answer::Done);
        push_line(rt, text, line);
    }
}

/// A script as a text: a line for each setting, blob, step and rule.
fn script_text(rt: &(impl Abort + AllocGlobal), script: &Script) -> String {
    let mut text = String::new(rt.alloc());
    let (quota, drain, gap) = (script.quota, script.drain, script.gap);
    write!(text, "quota {quota} drain {drain} gap {gap}\n").expect(rt, "memory");
    for blob in script.blobs.as_slice() {
        push_blob(rt, &mut text, blob);
    }
    for step in script.steps.as_slice() {
        push_step(rt, &mut text, step);
    }
    for rule in script.rules.as_slice() {
        push_rule(rt, &mut text, rule);
    }
    text
}

/// Asserts what a script means, behind the line of its settings.
fn expect_meaning(rt: &(impl Abort + AllocGlobal), script: &str, settings: &str, means: &str) {
    let found = match read(rt, script.as_bytes()) {
        Ok(script) => script_text(rt, &script),
        Err(fault) => fault,
    };
    assert!(rt;
        found.as_str().strip_prefix(settings) == Some(means),
        "{script}"
    );
}

/// Scripts of settings, blobs and faults, each with what it means.
static SCRIPTS: [(&str, &str); 59] = [
    ("", "quota 134217728 drain 100000 gap 0\n"),
    ("# nothing\n", "quota 134217728 drain 100000 gap 0\n"),
    ("\u{feff}gap = 1\n", "quota 134217728 drain 100000 gap 1\n"),
    ("quota = 1\ndrain = 1\ngap = 0\n", "quota 1 drain 1 gap 0\n"),
    (
        "quota = 1099511627776\ndrain = 1000000\ngap = 1099511627776\n",
        "quota 1099511627776 drain 1000000 gap 1099511627776\n",
    ),
    ("quota = 0\n", "fault key quota\n"),
    ("quota = 1099511627777\n", "fault key quota\n"),
    ("quota = -1\n", "fault key quota\n"),
    ("quota = \"1\"\n", "fault key quota\n"),
    ("quota = 1.0\n", "fault key quota\n"),
    ("quota = true\n", "fault key quota\n"),
    ("quota = 9223372036854775808\n", "fault not toml\n"),
    ("drain = 0\n", "fault key drain\n"),
    ("drain = 1000001\n", "fault key drain\n"),
    ("gap = -1\n", "fault key gap\n"),
    ("gap = 1099511627777\n", "fault key gap\n"),
    ("gap = []\n", "fault key gap\n"),
    ("blobs = \"file a\"\n", "fault key blobs\n"),
    ("steps = \"attach\"\n", "fault key steps\n"),
    ("steps = {}\n", "fault key steps\n"),
    ("rules = {}\n", "fault key rules\n"),
    ("blobs = 1\n", "fault key blobs\n"),
    ("[[rules]]\n", "fault rule 0\n"),
    ("[rules]\n", "fault key rules\n"),
    (
        "blobs = [\"file a b\", \"file  \", \"hex 00fFAa\", \"hex \"]\n",
        "quota 134217728 drain 100000 gap 0\nfile a b\nfile  \nhex [0, 255, 170]\nhex []\n",
    ),
    ("blobs = [\"file \"]\n", "fault blob 0\n"),
    ("blobs = [\"file\"]\n", "fault blob 0\n"),
    ("blobs = [\"hex\"]\n", "fault blob 0\n"),
    ("blobs = [\"hex 0\"]\n", "fault blob 0\n"),
    ("blobs = [\"hex 0g\"]\n", "fault blob 0\n"),
    ("blobs = [\"hex 00 00\"]\n", "fault blob 0\n"),
    ("blobs = [\"hex 00\", \"File a\"]\n", "fault blob 1\n"),
    ("blobs = [1]\n", "fault blob 0\n"),
    ("blobs = [\"hex 00\", [], 7]\n", "fault blob 1\n"),
    ("steps = [1]\n", "fault step 0\n"),
    ("steps = [\"attach\", [\"attach\"]]\n", "fault step 1\n"),
    ("rules = [1]\n", "fault rule 0\n"),
    ("rules = [\"x\"]\n", "fault rule 0\n"),
    ("x = 1\n", "fault key x\n"),
    ("x = 1\nXs = 2\n\"\" = 3\n", "fault key \n"),
    ("zz = 1\nquota = 0\n", "fault key zz\n"),
    ("\"a\u{e9}\" = 1\n", "fault key a\u{e9}\n"),
    (
        "quota = 0\ndrain = 0\ngap = -1\nblobs = 1\nsteps = 1\nrules = 1\n",
        "fault key quota\n",
    ),
    (
        "rules = 1\nsteps = 1\nblobs = 1\ngap = -1\ndrain = 0\n",
        "fault key drain\n",
    ),
    (
        "rules = 1\nsteps = 1\nblobs = 1\ngap = -1\n",
        "fault key gap\n",
    ),
    ("rules = 1\nsteps = 1\nblobs = 1\n", "fault key blobs\n"),
    ("rules = 1\nsteps = 1\n", "fault key steps\n"),
    ("rules = 1\nsteps = [\"x\"]\n", "fault key rules\n"),
    ("steps = [\"x\"]\nblobs = [\"x\"]\n", "fault blob 0\n"),
    ("blobs = [\"x\"]\nsteps = [\"x\"]\n", "fault blob 0\n"),
    (
        "rules = [{}]\nsteps = [\"attach\", \"x\"]\n",
        "fault step 1\n",
    ),
    (
        "steps = [\"attach\", \"y\", \"x\"]\nrules = [{}]\n",
        "fault step 1\n",
    ),
    ("rules = [{}]\nblobs = [\"hex 1\"]\n", "fault blob 0\n"),
    ("blobs = [\"hex 1\"]\nrules = [{}]\n", "fault blob 0\n"),
    ("steps = [\n", "fault not toml\n"),
    ("steps = [\"attach\"\n", "fault not toml\n"),
    ("steps = [\"a\"] x\n", "fault not toml\n"),
    ("quota = 1\nquota = 1\n", "fault not toml\n"),
    ("steps = [\"atach\"]\n", "fault step 0\n"),
];

#[test]
fn scripts(rt: HostRuntime) {
    for &(script, means) in &SCRIPTS {
        expect_meaning(&rt, script, "", means);
    }
}

/// The settings where all are left out.
const DEFAULTS: &str = "quota 134217728 drain 100000 gap 0\n";

/// Lines that are step lines, with what they print.
static LINES: [(&str, &str); 39] = [
    ("attach", "call attach: done\n"),
    ("add", "call add: done\n"),
    ("add video/mp4", "call add video/mp4: done\n"),
    ("add  x", "call add  x: done\n"),
    (
        "add video/mp4; codecs=\"avc1.42E01E, mp4a.40.2\"",
        "call add video/mp4; codecs=\"avc1.42E01E, mp4a.40.2\": done\n",
    ),
    ("add a b", "call add a b: done\n"),
    (
        "removebuffer 4294967295",
        "call removebuffer 4294967295: done\n",
    ),
    ("duration 1/10", "call duration 14112000000: done\n"),
    ("duration nan", "call duration nan: done\n"),
    ("duration -1", "call duration -1: done\n"),
    ("endofstream", "call endofstream: done\n"),
    ("endofstream network", "call endofstream network: done\n"),
    ("endofstream decode", "call endofstream decode: done\n"),
    (
        "live 10/1 -5/1",
        "call live 1411200000000 -705600000000: done\n",
    ),
    ("clearlive", "call clearlive: done\n"),
    ("mode 0 segments", "call mode 0 segments: done\n"),
    ("mode 1 sequence", "call mode 1 sequence: done\n"),
    ("offset 2 -1/44101", "call offset 2 -3199928: done\n"),
    ("windowstart 3 0", "call windowstart 3 0: done\n"),
    ("windowend 4 inf", "call windowend 4 inf: done\n"),
    ("append 5 2", "call append 5 2: done\n"),
    (
        "append 0 0 9223372036854775807 0",
        "call append 0 0 9223372036854775807 0: done\n",
    ),
    ("abort 7", "call abort 7: done\n"),
    (
        "remove 8 200/1000 inf",
        "call remove 8 28224000000 inf: done\n",
    ),
    ("changetype 9", "call changetype 9: done\n"),
    (
        "changetype 9 video/mp4",
        "call changetype 9 video/mp4: done\n",
    ),
    ("changetype 9  x", "call changetype 9  x: done\n"),
    ("buffered 0", "call buffered 0: done\n"),
    ("state", "call state: done\n"),
    ("seek 5/1", "call seek 705600000000: done\n"),
    ("play", "call play: done\n"),
    ("pause", "call pause: done\n"),
    ("advance 1/3", "call advance 47040000000: done\n"),
    ("elementbuffered", "call elementbuffered: done\n"),
    ("seekable", "call seekable: done\n"),
    ("fire", "fire\n"),
    ("work 15", "work 15\n"),
    ("element", "element\n"),
    ("drain", "drain\n"),
];

#[test]
fn lines(rt: HostRuntime) {
    for &(line, printed) in &LINES {
        let script = format!(in rt.alloc(); "steps = ['{line}']\n").expect(&rt, "memory");
        expect_meaning(&rt, script.as_str(), DEFAULTS, printed);
    }
}

/// Lines that are no step lines, as they stand between the quotes of TOML.
static BAD_LINES: [&str; 69] = [
    "",
    " ",
    " attach",
    "attach ",
    "attach  x",
    "attach x",
    "Attach",
    "atach",
    "add ",
    "add\\tx",
    "add \u{e9}",
    "add \\u007f",
    "removebuffer",
    "removebuffer ",
    "removebuffer 4294967296",
    "removebuffer 01",
    "removebuffer 00",
    "removebuffer -1",
    "removebuffer +1",
    "removebuffer 1 ",
    "removebuffer  1",
    "removebuffer 1 2",
    "removebuffer 1x",
    "duration",
    "duration 1 2",
    "duration Nan",
    "endofstream ",
    "endofstream network decode",
    "endofstream Network",
    "live 1",
    "live 1  2",
    "live 1 2 3",
    "clearlive 1",
    "mode 0",
    "mode segments 0",
    "mode 0 segment",
    "offset 0",
    "offset 0 x",
    "offset x 0",
    "append 0",
    "append 0 0 1",
    "append 0 0 1 2 3",
    "append 0 0 9223372036854775808 0",
    "append 0 0 0 9223372036854775808",
    "append 0 0 01 0",
    "append 4294967296 0",
    "append 0 4294967296",
    "remove 0 1",
    "remove 0 1 2 3",
    "changetype",
    "changetype ",
    "changetype x",
    "changetype 9 ",
    "changetype  9",
    "buffered",
    "state 0",
    "seek",
    "play 1",
    "advance",
    "fire 0",
    "fire ",
    "work",
    "work ",
    "work x",
    "work 01",
    "work 4294967296",
    "work 0 0",
    "element 0",
    "drain 0",
];

#[test]
fn bad_lines(rt: HostRuntime) {
    for line in &BAD_LINES {
        let script = format!(in rt.alloc(); "steps = [\"{line}\", \"\"]\n").expect(&rt, "memory");
        expect_meaning(&rt, script.as_str(), "", "fault step 0\n");
    }
}

/// The lines of a rule.
static RULE: [(&str, &str); 5] = [
    ("listener", "listener = 15"),
    ("on", "on = \"buffer 3 updateend\""),
    ("times", "times = 1000000"),
    ("repeat", "repeat = true"),
    ("calls", "calls = [\"abort 3\", \"append 3 0 1 2\"]"),
];

/// Asserts what a rule means that has another line for one of its keys.
fn expect_rule(
    rt: &(impl Abort + AllocGlobal),
    changed: &str,
    line: &str,
    settings: &str,
    means: &str,
) {
    let mut script = String::new(rt.alloc());
    push(rt, &mut script, "[[rules]]\n");
    for &(key, usual) in &RULE {
        let line = if key == changed { line } else { usual };
        push(rt, &mut script, line);
        push(rt, &mut script, "\n");
    }
    expect_meaning(rt, script.as_str(), settings, means);
}

/// A key with its line in place of the usual one, and what the rule then is.
static RULES: [(&str, &str, &str); 13] = [
    (
        "none",
        "",
        "rule 15 1000000 true\nevent buffer 3 updateend\nlistener 15 abort 3: done\nlistener 15 append 3 0 1 2: done\n",
    ),
    (
        "listener",
        "listener = 0",
        "rule 0 1000000 true\nevent buffer 3 updateend\nlistener 0 abort 3: done\nlistener 0 append 3 0 1 2: done\n",
    ),
    (
        "times",
        "",
        "rule 15 1 true\nevent buffer 3 updateend\nlistener 15 abort 3: done\nlistener 15 append 3 0 1 2: done\n",
    ),
    (
        "times",
        "times = 1",
        "rule 15 1 true\nevent buffer 3 updateend\nlistener 15 abort 3: done\nlistener 15 append 3 0 1 2: done\n",
    ),
    (
        "repeat",
        "",
        "rule 15 1000000 false\nevent buffer 3 updateend\nlistener 15 abort 3: done\nlistener 15 append 3 0 1 2: done\n",
    ),
    (
        "repeat",
        "repeat = false",
        "rule 15 1000000 false\nevent buffer 3 updateend\nlistener 15 abort 3: done\nlistener 15 append 3 0 1 2: done\n",
    ),
    (
        "on",
        "on = \"sourcebuffers addsourcebuffer\"",
        "rule 15 1000000 true\nevent sourcebuffers addsourcebuffer\nlistener 15 abort 3: done\nlistener 15 append 3 0 1 2: done\n",
    ),
    (
        "on",
        "on = \"activesourcebuffers removesourcebuffer\"",
        "rule 15 1000000 true\nevent activesourcebuffers removesourcebuffer\nlistener 15 abort 3: done\nlistener 15 append 3 0 1 2: done\n",
    ),
    (
        "on",
        "on = \"element canplaythrough\"",
        "rule 15 1000000 true\nevent element canplaythrough\nlistener 15 abort 3: done\nlistener 15 append 3 0 1 2: done\n",
    ),
    (
        "on",
        "on = \"source sourceended\"",
        "rule 15 1000000 true\nevent source sourceended\nlistener 15 abort 3: done\nlistener 15 append 3 0 1 2: done\n",
    ),
    (
        "on",
        "on = \"element error\"",
        "rule 15 1000000 true\nevent element error\nlistener 15 abort 3: done\nlistener 15 append 3 0 1 2: done\n",
    ),
    (
        "on",
        "on = \"buffer 4294967295 abort\"",
        "rule 15 1000000 true\nevent buffer 4294967295 abort\nlistener 15 abort 3: done\nlistener 15 append 3 0 1 2: done\n",
    ),
    (
        "calls",
        "calls = [\"changetype 0  x\"]",
        "rule 15 1000000 true\nevent buffer 3 updateend\nlistener 15 changetype 0  x: done\n",
    ),
];

/// Lines with which the rule is none.
static BAD_RULES: [(&str, &str); 28] = [
    ("listener", ""),
    ("on", ""),
    ("calls", ""),
    ("listener", "listener = 16"),
    ("listener", "listener = -1"),
    ("listener", "listener = \"0\""),
    ("times", "times = 0"),
    ("times", "times = 1000001"),
    ("times", "times = 1.0"),
    ("repeat", "repeat = 1"),
    ("calls", "calls = []"),
    ("calls", "calls = \"state\""),
    ("calls", "calls = [\"fire\"]"),
    ("calls", "calls = [\"state\", 1]"),
    ("on", "on = 1"),
    ("times", "extra = 1"),
    ("times", "Times = 1"),
    ("on", "on = \"event source sourceopen\""),
    ("on", "on = \"source\""),
    ("on", "on = \"source update\""),
    ("on", "on = \"buffer updateend\""),
    ("on", "on = \"buffer 03 update\""),
    ("on", "on = \"buffer 0 sourceopen\""),
    ("on", "on = \"buffer 0 updateend \""),
    ("on", "on = \"element  play\""),
    ("on", "on = \"\""),
    ("on", "on = \"element updateend\""),
    ("on", "on = \"sourcebuffer addsourcebuffer\""),
];

#[test]
fn rules(rt: HostRuntime) {
    for &(key, line, means) in &RULES {
        expect_rule(&rt, key, line, DEFAULTS, means);
    }
    for &(key, line) in &BAD_RULES {
        expect_rule(&rt, key, line, "", "fault rule 0\n");
    }
}

/// Texts of times, with the call that they print in; the empty text where they are no times.
static TIMES: [(&str, &str); 44] = [
    ("nan", "call seek nan: done\n"),
    ("inf", "call seek inf: done\n"),
    ("0", "call seek 0: done\n"),
    ("1", "call seek 1: done\n"),
    ("-1", "call seek -1: done\n"),
    (
        "999999999999999999999999",
        "call seek 999999999999999999999999: done\n",
    ),
    ("1000000000000000000000000", ""),
    ("0999", ""),
    ("00", ""),
    ("-0", ""),
    ("-0/5", ""),
    ("+1", ""),
    ("-", ""),
    ("--1", ""),
    ("", ""),
    ("1/1", "call seek 141120000000: done\n"),
    ("1/0", ""),
    ("1/01", ""),
    ("-1/44101", "call seek -3199928: done\n"),
    ("1/44101", "call seek 3199927: done\n"),
    ("2/44101", "call seek 6399854: done\n"),
    ("1/4294967295", "call seek 32: done\n"),
    ("-1/4294967295", "call seek -33: done\n"),
    ("1/4294967296", ""),
    ("0/7", "call seek 0: done\n"),
    ("1/", ""),
    ("/1", ""),
    ("1/2/3", ""),
    ("1/-1", ""),
    (" 1", ""),
    ("1 ", ""),
    ("1/ 1", ""),
    (
        "9198371702336358468910/1",
        "call seek 1298074214633706907132579200000000: done\n",
    ),
    ("9198371702336358468911/1", ""),
    (
        "-9198371702336358468910/1",
        "call seek -1298074214633706907132579200000000: done\n",
    ),
    ("-9198371702336358468911/1", ""),
    ("-inf", ""),
    ("-nan", ""),
    ("Inf", ""),
    ("NaN", ""),
    ("1.5", ""),
    ("1e3", ""),
    (
        "999999999999999999999999/4294967295",
        "call seek 32857060440084212562088871: done\n",
    ),
    ("200/1000", "call seek 28224000000: done\n"),
];

#[test]
fn times(rt: HostRuntime) {
    for &(text, printed) in &TIMES {
        let line = match read_time(text) {
            Some(t) => script_line(rt.alloc(), &Call::Seek(t), &Answer::Done),
            None => Text::copy_of(rt.alloc(), ""),
        };
        expect_printed(&rt, line, printed);
    }
}

/// The script that docs/SCRIPTS.md explains line by line, and what it means.
const WHOLE: (&str, &str) = (
    r#"# Appends the front of a file in steps, and the rest from a listener.
quota = 1000000
drain = 500
gap = 141120
blobs = ["file movie.mp4", "hex 0000000866726565"]
steps = [
  "attach",
  'add video/mp4; codecs="avc1.42E01E"',
  "windowstart 0 1/2",
  "append 0 0 0 745",
  "fire",
  "work 0",
  "drain",
  "seek 3/1",
  "element",
  "drain",
  "endofstream",
  "state",
]

[[rules]]
listener = 0
on = "buffer 0 updateend"
times = 1
calls = ["append 0 0 745 6", "buffered 0"]
"#,
    "\
quota 1000000 drain 500 gap 141120
file movie.mp4
hex [0, 0, 0, 8, 102, 114, 101, 101]
call attach: done
call add video/mp4; codecs=\"avc1.42E01E\": done
call windowstart 0 70560000000: done
call append 0 0 0 745: done
fire
work 0
drain
call seek 423360000000: done
element
drain
call endofstream: done
call state: done
rule 0 1 false
event buffer 0 updateend
listener 0 append 0 0 745 6: done
listener 0 buffered 0: done
",
);

#[test]
fn whole_script(rt: HostRuntime) {
    expect_meaning(&rt, WHOLE.0, "", WHOLE.1);
}
