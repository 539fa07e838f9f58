//! Faults alone and in pairs, and lists at their limits.

use super::*;

/// A key with a list of `count` times the same member.
fn list_of(rt: &(impl Abort + AllocGlobal), key: &str, member: &str, count: usize) -> String {
    let mut text = format!(in rt.alloc(); "{key} = [").expect(rt, "memory");
    for _ in 0..count {
        push(rt, &mut text, member);
        push(rt, &mut text, ", ");
    }
    push(rt, &mut text, "]\n");
    text
}

/// Asserts that a script has a fault, or none.
fn expect_fault(rt: &(impl Abort + AllocGlobal), script: &[u8], fault: &str) {
    match read(rt, script) {
        Ok(_) => assert!(rt; fault == "none\n", "{fault}"),
        Err(found) => assert!(rt; found.as_str() == fault, "{fault}"),
    }
}

/// Asserts which fault two texts have, one behind the other.
fn expect_fault_of_two(rt: &(impl Abort + AllocGlobal), first: &[u8], second: &[u8], fault: &str) {
    let mut script = Vec::from_slice(rt.alloc(), first).expect(rt, "memory");
    script.extend_from_slice(second).expect(rt, "memory");
    expect_fault(rt, script.as_slice(), fault);
}

/// A key, how often a member stands in its list, and the fault.
static LISTS: [(&str, usize, &str, &str); 12] = [
    ("blobs", 1000, "\"hex \"", "none\n"),
    ("blobs", 1001, "\"hex \"", "fault too many blobs\n"),
    ("steps", 100_000, "\"fire\"", "none\n"),
    ("steps", 100_001, "\"fire\"", "fault too many steps\n"),
    ("rules", 1000, RULE_MEMBER, "none\n"),
    ("rules", 1001, RULE_MEMBER, "fault too many rules\n"),
    ("blobs", 1000, "\"\"", "fault blob 0\n"),
    ("blobs", 1001, "\"\"", "fault too many blobs\n"),
    ("steps", 100_000, "0", "fault step 0\n"),
    ("steps", 100_001, "0", "fault too many steps\n"),
    ("rules", 1000, "0", "fault rule 0\n"),
    ("rules", 1001, "0", "fault too many rules\n"),
];

const RULE_MEMBER: &str = "{listener = 0, on = \"element play\", calls = [\"state\"]}";

/// The front of a rule, up to its calls.
const RULE_FRONT: &[u8] = b"[[rules]]\nlistener = 0\non = \"element play\"\n";

/// How many calls a rule has, and the fault.
const CALLS: [(usize, &str); 2] = [(1000, "none\n"), (1001, "fault rule 0\n")];

/// Lists at their limits and past them; a list that is too long comes before a bad member of any.
#[test]
fn limits(rt: HostRuntime) {
    for &(key, count, member, fault) in &LISTS {
        let script = list_of(&rt, key, member, count);
        expect_fault(&rt, script.as_bytes(), fault);
    }
    for &(count, fault) in &CALLS {
        let calls = list_of(&rt, "calls", "\"state\"", count);
        expect_fault_of_two(&rt, RULE_FRONT, calls.as_bytes(), fault);
    }
}

/// Faults in the order in which they are looked for: a key, its value (a list of so many times the value
/// where the number is not 0), and the fault.
static FAULTS: [(&str, &str, usize, &str); 14] = [
    ("!", "1", 0, "fault not toml\n"),
    ("Rules", "1", 0, "fault key Rules\n"),
    ("aa", "1", 0, "fault key aa\n"),
    ("quota", "0", 0, "fault key quota\n"),
    ("drain", "0", 0, "fault key drain\n"),
    ("gap", "-1", 0, "fault key gap\n"),
    ("blobs", "1", 0, "fault key blobs\n"),
    ("steps", "1", 0, "fault key steps\n"),
    ("rules", "1", 0, "fault key rules\n"),
    ("blobs", "0", 1001, "fault too many blobs\n"),
    ("rules", "0", 1001, "fault too many rules\n"),
    ("blobs", "0", 1, "fault blob 0\n"),
    ("steps", "0", 1, "fault step 0\n"),
    ("rules", "0", 1, "fault rule 0\n"),
];

fn faulty(rt: &(impl Abort + AllocGlobal), key: &str, value: &str, count: usize) -> String {
    if count == 0 {
        format!(in rt.alloc(); "{key} = {value}\n").expect(rt, "memory")
    } else {
        list_of(rt, key, value, count)
    }
}

/// What two lines mean of which the first has this fault: a key that stands twice is no TOML.
fn meaning_of_two(key: &str, other: &str, means: &'static str) -> &'static str {
    if key == other {
        "fault not toml\n"
    } else {
        means
    }
}

/// Two faults in both orders of the text: the answer is the one that is looked for first.
#[test]
fn pairs_of_faults(rt: HostRuntime) {
    for (place, &(key, value, count, means)) in FAULTS.iter().enumerate() {
        let first = faulty(&rt, key, value, count);
        expect_fault(&rt, first.as_bytes(), means);
        for &(other, value, count, _means) in FAULTS.iter().skip(place + 1) {
            let second = faulty(&rt, other, value, count);
            let means = meaning_of_two(key, other, means);
            expect_fault_of_two(&rt, first.as_bytes(), second.as_bytes(), means);
            expect_fault_of_two(&rt, second.as_bytes(), first.as_bytes(), means);
        }
    }
}

/// Too many steps beside the faults that are looked for just before and just after.
#[test]
fn too_many_steps(rt: HostRuntime) {
    let blobs = list_of(&rt, "blobs", "0", 1001);
    let steps = list_of(&rt, "steps", "0", 100_001);
    let rules = list_of(&rt, "rules", "0", 1001);
    let (blobs, steps, rules) = (blobs.as_bytes(), steps.as_bytes(), rules.as_bytes());
    expect_fault_of_two(&rt, steps, blobs, "fault too many blobs\n");
    expect_fault_of_two(&rt, rules, steps, "fault too many steps\n");
}

/// Bytes that are not in UTF-8 are no TOML, before each fault and behind it.
#[test]
fn not_in_utf8(rt: HostRuntime) {
    for &(key, value, count, _means) in &FAULTS {
        let text = faulty(&rt, key, value, count);
        expect_fault_of_two(&rt, b"#\xff\n", text.as_bytes(), "fault not toml\n");
        expect_fault_of_two(&rt, text.as_bytes(), b"#\xff\n", "fault not toml\n");
    }
}
