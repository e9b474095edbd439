//! Callers that step a run and print each entry, proved and tested.

use oneshot::replay::{
    CallList, ErrorLast, ErrorScript, Move, ReceiverLast, ReceiverScript, Replayer, SenderLast,
    SenderScript,
};
use oneshot::text::{CalledLine, EntryLine, ParseError, Request, parse_request};
use oneshot_asserts::{Asserts, assert_same};
use std::alloc::{AllocError, Global};

/// Makes the run that a text asks for, and returns each entry's line with the call that the entry belongs to.
fn called_lines(alloc: Global, text: &str) -> Result<Vec<String>, ParseError> {
    let asked = parse_request(alloc, text)?;
    let message = asked.message();
    let Request {
        sender,
        receiver,
        moves,
    } = asked;
    let mut run = Replayer::new(sender, receiver);
    let mut lines = Vec::new(alloc);
    for m in moves.as_slice() {
        // What `of_step` requires.
        if run.count() == usize::MAX {
            break;
        }
        let line = CalledLine(EntryLine::of_step(&mut run, *m, message));
        lines.push(line.to_string(alloc)?)?;
    }
    Ok(lines)
}

/// Makes each move, and returns its entry's line as `oneshot-run` prints it.
fn lines_of(
    alloc: Global,
    run: &mut Replayer<u64>,
    moves: &[Move],
    message: u64,
) -> Result<Vec<String>, AllocError> {
    let mut lines = Vec::new(alloc);
    for m in moves {
        // What `of_step` requires.
        if run.count() == usize::MAX {
            break;
        }
        let line = EntryLine::of_step(run, *m, message);
        lines.push(line.to_string(alloc)?)?;
    }
    Ok(lines)
}

/// A run of a `send` of this message, whose error is left as it is, and of a receiver that is dropped.
fn run_of_a_send(alloc: Global, message: u64) -> Replayer<u64> {
    let error = ErrorScript {
        looks: 0,
        last: ErrorLast::Stop,
    };
    let sender = SenderScript {
        looks: 0,
        last: SenderLast::Send(message, error),
    };
    let receiver = ReceiverScript {
        calls: CallList::from(Vec::new(alloc)),
        last: ReceiverLast::Drop,
    };
    Replayer::new(sender, receiver)
}

#[test]
fn a_message_comes_back_and_its_lines_are_printed(rt: HostRuntime) {
    let mut run = run_of_a_send(rt.alloc(), 7);
    let receives = Move::Receiver {
        over: false,
        refuse: false,
    };
    let moves = [receives, Move::Sender, Move::Sender];
    let lines = lines_of(rt.alloc(), &mut run, &moves, 7).expect(&rt, "memory");
    let [dropped, written, refused] = lines.as_slice() else {
        panic!(rt; "a line a move")
    };
    let entries = (dropped.as_str(), written.as_str(), refused.as_str());
    let wanted = (
        "1 R swap 3>2 = dropped",
        "2 S write-message 2>2 m:NotSent>InCell",
        "3 S add 2>3 m:InCell>InError = Err",
    );
    assert_same!(rt; (entries, run.block_freed()), (wanted, false));
}

const ASKED: &str = "S closed send 7\nR full closed try full closed drop\nX rrsssrrrrrrrr\n";

const CALLED: [&str; 13] = [
    "1 R load 3>3 = false (full)",
    "2 R load 3>3 = false (closed)",
    "3 S load 3>3 = false (closed)",
    "4 S write-message 3>3 m:NotSent>InCell (send)",
    "5 S add 3>4 = Ok (send)",
    "6 R load 4>4 (try)",
    "7 R store 4>2 (try)",
    "8 R take-message 2>2 m:InCell>Delivered = Ok(7) (try)",
    "9 R load 2>2 = false (full)",
    "10 R load 2>2 = true (closed)",
    "11 R swap 2>2 (drop)",
    "12 R free 2>- = dropped (drop)",
    "13 R idle",
];

#[test]
fn each_line_names_its_call(rt: HostRuntime) {
    assert_called(&rt, ASKED);
}

/// Asserts that the lines of the run that a text asks for are those of `CALLED`.
fn assert_called(rt: &(impl Asserts + AllocGlobal), text: &str) {
    let lines = called_lines(rt.alloc(), text).expect(rt, "the text asks for a run");
    assert_same!(rt; lines.len(), CALLED.len());
    for (line, called) in lines.iter().zip(&CALLED) {
        assert_same!(rt; line.as_str(), *called);
    }
}

#[test]
#[should_panic(expected = "right: \"3 S load 3>3 = false (closed)\"")]
fn a_line_of_another_call_ends_a_test(rt: HostRuntime) {
    assert_called(&rt, "S drop\nR full closed try drop\nX rrsrrrrrrrrrr\n");
}
