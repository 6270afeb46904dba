//! Boards: schedules of two explorers, event by event.

use qf_base::{List, PBox, RowName};
use qf_board::Board;
use qf_certtext::write;
use qf_lin::Step;
use qf_tree::{Answer, Cert};
use std::alloc::Global;
use std::fmt::Write;
use std::test::Fail;

/// A board of two explorers over one parameter from 0 to 10 with the old constant 5.
fn board_of_two(alloc: Global) -> Result<Board, Fail> {
    let mut root = PBox::new(alloc, 1)?;
    root.set(0, 0, 10);
    let olds = List::from_slice(alloc, &[5])?;
    Ok(Board::open(alloc, root, olds, 2)?)
}

/// The first interval of a box that was handed out, as `0..10`.
fn box_shown(alloc: Global, handed: Option<PBox>) -> Result<String, Fail> {
    let mut shown = String::new(alloc);
    let Some(region) = handed else {
        shown.push_str("none")?;
        return Ok(shown);
    };
    if region.len() > 0 {
        let (lo, hi) = region.get(0);
        write!(shown, "{lo}..{hi}")?;
    }
    Ok(shown)
}

/// The one step that closes an empty box.
fn empty_alone(alloc: Global) -> Result<List<Step>, Fail> {
    let mut steps = List::new(alloc);
    steps.push(Step::Empty)?;
    Ok(steps)
}

/// Ends the holding of a box, unless the explorer holds none.
fn let_go(alloc: Global, board: &mut Board, verb: &str, who: u32) -> Result<bool, Fail> {
    if !board.holds(who) {
        return Ok(false);
    }
    match verb {
        "refute" => board.refute(who, RowName::Start(1), empty_alone(alloc)?)?,
        "found" => board.found(who),
        _ => board.give_back(who),
    }
    Ok(true)
}

/// Cuts the box that the explorer holds, unless it may not.
fn cut(board: &mut Board, who: u32, param: u32, value: i64) -> Result<bool, Fail> {
    if board.may_cut(who, param, value) {
        board.cut(who, param, value, RowName::Start(1))?;
        return Ok(true);
    }
    Ok(false)
}

/// The numbers of an event.
fn numbers_of(alloc: Global, text: &str) -> Result<List<i64>, Fail> {
    let mut numbers = List::new(alloc);
    for word in text.split(' ') {
        numbers.push(word.parse()?)?;
    }
    Ok(numbers)
}

/// A number of an event as what it is.
fn small(numbers: &[i64], place: usize) -> Result<u32, Fail> {
    let number = numbers.get(place).ok_or("a number")?;
    Ok(u32::try_from(*number)?)
}

/// Does an event of its verb, explorer, parameter and cut, and tells what it gives.
fn event_shown(alloc: Global, board: &mut Board, event: &str) -> Result<String, Fail> {
    let (verb, numbers) = event.split_once(" ").ok_or("a verb and numbers")?;
    let numbers = numbers_of(alloc, numbers)?;
    let numbers = numbers.as_slice();
    let who = small(numbers, 0)?;
    if verb == "take" {
        if !board.may_take(who) {
            return Ok(String::from_str(alloc, "refused")?);
        }
        return box_shown(alloc, board.take(who)?);
    }
    let happened = if verb == "cut" {
        let value = numbers.get(2).ok_or("a value")?;
        cut(board, who, small(numbers, 1)?, *value)?
    } else {
        let_go(alloc, board, verb, who)?
    };
    Ok(String::from_str(alloc, if happened { "done" } else { "refused" })?)
}

/// Does the events of a schedule, and tells each with what it gives.
fn events_shown(alloc: Global, board: &mut Board, events: &str) -> Result<String, Fail> {
    let mut shown = String::new(alloc);
    for line in events.lines() {
        let (event, _) = line.split_once(" => ").ok_or("an event and what it gives")?;
        let given = event_shown(alloc, board, event)?;
        if !shown.is_empty() {
            shown.push('\n')?;
        }
        write!(shown, "{event} => {given}")?;
    }
    Ok(shown)
}

/// The best point's values, the number of nodes, and whether the board has ended.
fn state_shown(alloc: Global, board: &Board) -> Result<String, Fail> {
    let mut shown = String::new(alloc);
    match board.best() {
        Some(point) => {
            for value in point.as_slice() {
                write!(shown, "{value} ")?;
            }
        }
        None => shown.push_str("none ")?,
    }
    let (nodes, has_ended) = (board.nodes(), board.finish());
    write!(shown, "{nodes} {has_ended}")?;
    Ok(shown)
}

/// The text of a certificate with the board's tree.
fn certificate_of(alloc: Global, board: Board) -> Result<List<u8>, Fail> {
    let cert = Cert {
        answer: Answer::Budget,
        tree: board.into_tree()?,
    };
    Ok(write(alloc, &cert)?)
}

/// The text of a certificate with a tree that has `|` in place of feeds.
fn with_feeds(alloc: Global, tree: &str) -> Result<List<u8>, Fail> {
    let mut text = List::from_slice(alloc, b"qfix-cert 1\nanswer budget\n")?;
    for byte in tree.as_bytes() {
        text.push(if *byte == b'|' { b'\n' } else { *byte })?;
    }
    text.extend(b"end\n")?;
    Ok(text)
}

// Schedules: events with what they give, then the best point, the nodes and the end, and the tree with `|` for feeds.
const SCHEDULES: [(&str, &str, &str); 4] = [
    (
        "take 0 => 0..10
cut 0 1 5 => done
take 1 => 0..5
take 0 => 6..10
refute 1 => done
found 0 => done
take 1 => none",
        "6 2 true",
        "split p1 5 r1|refuted r1|empty|dear|",
    ),
    (
        "take 2 => refused
give 0 => refused
found 1 => refused
refute 0 => refused
cut 0 1 5 => refused
take 0 => 0..10
take 0 => refused
take 1 => none
cut 0 1 10 => refused
cut 0 1 -1 => refused
cut 0 0 5 => refused
cut 0 2 5 => refused
give 0 => done
give 0 => refused
take 1 => 0..10
cut 1 1 4 => done
take 0 => 5..10
take 1 => 0..4
give 0 => done",
        "none 1 false",
        "split p1 4 r1|open|open|",
    ),
    (
        "take 0 => 0..10
cut 0 1 6 => done
take 1 => 0..6
take 0 => 7..10
found 0 => done
cut 1 1 5 => done
take 1 => 0..5
refute 1 => done
take 0 => 6..6
found 0 => done
take 1 => none
take 0 => none",
        "6 3 true",
        "split p1 6 r1|split p1 5 r1|refuted r1|empty|dear|dear|",
    ),
    // 4 costs as much as 6 and comes before it. The other explorer's 5 replaces 6, and 4 does not replace 5.
    (
        "take 0 => 0..10
cut 0 1 5 => done
take 0 => 0..5
take 1 => 6..10
found 1 => done
take 1 => none
cut 0 1 4 => done
take 0 => 5..5
take 1 => 0..4
found 0 => done
found 1 => done
take 0 => none",
        "5 2 true",
        "split p1 5 r1|split p1 4 r1|dear|dear|dear|",
    ),
];

#[test]
fn schedules_of_two_explorers(rt: HostRuntime) -> Result<(), Fail> {
    let alloc = rt.alloc();
    for (events, state, tree) in SCHEDULES {
        let mut board = board_of_two(alloc)?;
        assert_eq!(rt; events_shown(alloc, &mut board, events)?.as_str(), events);
        assert_eq!(rt; state_shown(alloc, &board)?.as_str(), state);
        let text = certificate_of(alloc, board)?;
        let wanted = with_feeds(alloc, tree)?;
        assert!(rt; text.as_slice() == wanted.as_slice(), "{tree}");
    }
    Ok(())
}
