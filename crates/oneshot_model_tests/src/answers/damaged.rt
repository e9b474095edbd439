//! Tests of damaged texts: the program agrees with a second reading, which knows only the grammar.

mod damage;
mod drawn;
mod draws;
mod fronts;
mod pieces;
mod place;
mod reading;

use crate::answers::{output_of, status_and_text};
use oneshot_asserts::Asserts;
use reading::{Asked, Flaw, Kind, read};

/// Asserts that the program's output for `input` agrees with the second reading: the trace of the run that
/// it asks for, or its first fault.
pub(crate) fn assert_as_read(rt: &(impl Asserts + AllocGlobal), input: &[u8]) -> Kind {
    assert_output(rt, input, &output_of(rt, input))
}

/// Asserts that this output for `input` agrees with the second reading.
fn assert_output(rt: &(impl Asserts + AllocGlobal), input: &[u8], output: &str) -> Kind {
    match read(input) {
        Ok(asked) => {
            assert_trace(rt, input, asked, output);
            Kind::Trace
        }
        Err(flaw) => {
            assert_fault(rt, input, flaw, output);
            flaw.kind()
        }
    }
}

/// Asserts that an output agrees. Prints what it says, what it has to say, and the input.
fn assert_told(rt: &impl Asserts, input: &[u8], agrees: bool, told: &str, wanted: &str) {
    assert!(rt; agrees, "{told}, not {wanted}: {}", input.escape_ascii());
}

/// Asserts that the output is this fault, after its status.
fn assert_fault(rt: &(impl Asserts + AllocGlobal), input: &[u8], flaw: Flaw, output: &str) {
    let fault = flaw.to_string(rt.alloc()).expect(rt, "memory");
    let wanted = status_and_text(rt, 2, &fault);
    assert_told(rt, input, output == wanted.as_str(), output, &wanted);
}

/// Asserts an entry for each move, then the message's place, then whether the block is freed, and no more.
fn assert_trace(rt: &(impl Asserts + AllocGlobal), input: &[u8], asked: Asked<'_>, output: &str) {
    let lines: Vec<&str> = output
        .split_terminator('\n')
        .collect(rt.alloc())
        .expect(rt, "memory");
    assert_entries(rt, input, asked.letters, &lines);
    match lines.get(asked.letters.len()..) {
        Some([rest, block]) => {
            assert_rest(rt, input, rest, asked.message);
            assert_block(rt, input, block);
        }
        _ => assert_told(rt, input, false, output, "a rest and a block at the end"),
    }
}

/// Asserts that the lines begin with an entry for each of these letters.
fn assert_entries(rt: &(impl Asserts + AllocGlobal), input: &[u8], letters: &str, lines: &[&str]) {
    for (index, letter) in letters.chars().enumerate() {
        let entry = lines.get(index).expect(rt, "an entry a move");
        assert_entry(rt, input, entry, index.saturating_add(1), letter);
    }
}

/// Asserts an entry's number, and that the entry is of the end that `letter` moves.
fn assert_entry(
    rt: &(impl Asserts + AllocGlobal),
    input: &[u8],
    entry: &str,
    number: usize,
    letter: char,
) {
    let end = if letter == 's' { "S" } else { "R" };
    let begin = format!(in rt.alloc(); "{number} {end} ").expect(rt, "memory");
    let begins = entry.starts_with(begin.as_str());
    assert_told(rt, input, begins, entry, &begin);
}

/// Asserts that the line `rest` shows this message, if there is one.
fn assert_rest(rt: &(impl Asserts + AllocGlobal), input: &[u8], rest: &str, message: Option<&str>) {
    match message {
        Some(message) => assert_shown(rt, input, rest, message),
        None => assert_told(rt, input, rest == "rest none", rest, "rest none"),
    }
}

/// Asserts that the line `rest` shows this message.
fn assert_shown(rt: &(impl Asserts + AllocGlobal), input: &[u8], rest: &str, message: &str) {
    let end = format!(in rt.alloc(); "({message})").expect(rt, "memory");
    let whole = rest.starts_with("rest ") && rest.ends_with(end.as_str());
    assert_told(rt, input, whole, rest, &end);
}

/// Asserts that the line `block` says whether the block is freed.
fn assert_block(rt: &impl Asserts, input: &[u8], block: &str) {
    let is_block = block == "block here" || block == "block freed";
    assert_told(rt, input, is_block, block, "block here or freed");
}

#[test]
#[should_panic(expected = "2 line 1 is missing, not 2 line 2 is missing")]
fn a_fault_that_is_read_otherwise_ends_a_test(rt: HostRuntime) {
    assert_output(&rt, b"S", "2 line 1 is missing");
}

#[test]
#[should_panic(expected = "1 R load:3, not 1 S ")]
fn an_entry_of_the_other_end_ends_a_test(rt: HostRuntime) {
    assert_entry(&rt, b"S", "1 R load:3", 1, 's');
}

#[test]
#[should_panic(expected = "2 S add:3, not 1 S ")]
fn an_entry_of_another_number_ends_a_test(rt: HostRuntime) {
    assert_entry(&rt, b"S", "2 S add:3", 1, 's');
}

#[test]
#[should_panic(expected = "rest Cell(8), not (7)")]
fn another_message_ends_a_test(rt: HostRuntime) {
    assert_rest(&rt, b"S", "rest Cell(8)", Some("7"));
}

#[test]
#[should_panic(expected = "rest Cell(8), not rest none")]
fn a_message_that_was_not_sent_ends_a_test(rt: HostRuntime) {
    assert_rest(&rt, b"S", "rest Cell(8)", None);
}
