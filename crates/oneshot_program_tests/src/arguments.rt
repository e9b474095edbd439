//! Tests of the arguments that are read and refused, and of the text of each fault.

use oneshot_asserts::{Asserts, assert_same};
use oneshot_loops::channels::Channel;
use oneshot_loops::command::fault::Fault;
use oneshot_loops::command::{Command, parse_command, parse_count};
use oneshot_loops::fault as rounds;
use oneshot_loops::loops::{Awaited, Loop};
use std::alloc::AllocError;

fn parsed(rt: &(impl Asserts + AllocGlobal), words: &[&str]) -> Option<Command> {
    let mut owned = Vec::new(rt.alloc());
    for word in words {
        let word = String::from_str(rt.alloc(), word).expect(rt, "memory");
        owned.push(word).expect(rt, "memory");
    }
    parse_command(owned.as_slice())
}

const NAMES: &[(&str, Loop); 10] = &[
    ("make_send_receive_drop", Loop::MakeSendReceiveDrop),
    ("make_drop", Loop::MakeDrop),
    ("make_send_recv", Loop::MakeSendRecv),
    ("make_poll_send_poll", Loop::MakePollSendPoll),
    (
        "make_send_receive_drop_4096",
        Loop::MakeSendReceiveDropLarge,
    ),
    ("round_trip", Loop::RoundTrip),
    (
        "make_send_block_on",
        Loop::Awaited(Awaited::MakeSendBlockOn),
    ),
    ("make_send_await", Loop::Awaited(Awaited::MakeSendAwait)),
    ("poll_pending", Loop::Awaited(Awaited::PollPending)),
    ("round_trip_await", Loop::Awaited(Awaited::RoundTripAwait)),
];

#[test]
fn each_name_is_read(rt: HostRuntime) {
    for (name, kind) in NAMES {
        let command = Command::Measure {
            channel: Channel::Oneshot,
            kind: *kind,
            count: 12,
        };
        let read = parsed(&rt, &[name, "12"]);
        assert_same!(rt; (*name, read), (*name, Some(command)));
    }
}

const CHANNELS: &[(&str, Channel); 3] = &[
    ("oneshot", Channel::Oneshot),
    ("futures", Channel::Futures),
    ("crossbeam", Channel::Crossbeam),
];

#[test]
fn each_channel_is_read(rt: HostRuntime) {
    for (name, channel) in CHANNELS {
        let command = Command::Measure {
            channel: *channel,
            kind: Loop::MakeDrop,
            count: 12,
        };
        let read = parsed(&rt, &[name, "make_drop", "12"]);
        assert_same!(rt; (*name, read), (*name, Some(command)));
    }
}

const NO_CHANNELS: &[&str; 5] = &["", "one", "oneshot ", "Futures", "make_drop"];

const NO_LOOPS: &[&str; 6] = &["", "make", "make_drop_", "make_drop ", "Make_drop", "4096"];

#[test]
fn other_names_are_refused(rt: HostRuntime) {
    for name in NO_CHANNELS {
        assert_same!(rt; (*name, Channel::named(name)), (*name, None));
    }
    for name in NO_LOOPS {
        assert_same!(rt; (*name, Loop::named(name)), (*name, None));
    }
}

const COUNTS: &[(&str, Option<u64>); 14] = &[
    ("0", Some(0)),
    ("7", Some(7)),
    ("007", Some(7)),
    ("+7", Some(7)),
    ("18446744073709551615", Some(18_446_744_073_709_551_615)),
    ("18446744073709551616", None),
    ("100000000000000000000", None),
    ("", None),
    ("+", None),
    ("-1", None),
    ("1.5", None),
    ("1 ", None),
    ("1_000", None),
    ("ten", None),
];

#[test]
fn counts_of_64_bits_are_read(rt: HostRuntime) {
    for (word, count) in COUNTS {
        assert_same!(rt; (*word, parse_count(word)), (*word, *count));
    }
}

const NO_COMMANDS: &[&[&str]; 6] = &[
    &["make_drop"],
    &["1", "make_drop"],
    &["make_drop", "1", "1"],
    &["make_drop", "futures", "1"],
    &["futures", "make_drop"],
    &["futures", "make_drop", "1", "1"],
];

#[test]
fn a_command_has_no_word_or_two_or_three(rt: HostRuntime) {
    assert_same!(rt; parsed(&rt, &[]), Some(Command::Usage));
    for words in NO_COMMANDS {
        assert_same!(rt; (*words, parsed(&rt, words)), (*words, None));
    }
}

/// The status of a fault, and its text.
fn told(rt: &(impl Asserts + AllocGlobal), fault: &Fault) -> String {
    format!(in rt.alloc(); "{} {fault}", fault.status()).expect(rt, "memory")
}

#[test]
fn a_fault_is_one_line_and_a_status(rt: HostRuntime) {
    let faults = [
        (Fault::Rounds(rounds::Fault::ClockFailed), "1 clock failed"),
        (Fault::WriteFailed, "1 write failed"),
        (Fault::Rounds(rounds::Fault::MessageLost), "1 message lost"),
        (
            Fault::Rounds(rounds::Fault::CannotRun),
            "2 channel cannot run this loop",
        ),
        (Fault::Rounds(rounds::Fault::TaskFailed), "1 task failed"),
        (
            Fault::Rounds(rounds::Fault::OutOfMemory(AllocError)),
            "3 out of memory",
        ),
        (Fault::OutOfMemory(AllocError), "3 out of memory"),
    ];
    for (fault, text) in &faults {
        assert_same!(rt; told(&rt, fault).as_str(), *text);
    }
}

#[test]
fn the_fault_of_bad_arguments_is_the_usage(rt: HostRuntime) {
    let usage = told(&rt, &Fault::BadArguments);
    assert!(rt;
        usage
            .as_str()
            .starts_with("2 usage: oneshot_bench [CHANNEL] LOOP COUNT")
    );
}
