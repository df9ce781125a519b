// The calls on a session. Each looks first whether the session is the one that its own trace, model and pairs make, so that none is believed.
ghost use Rattle.std.specs.Prelude.{◌≡◌, [], ◌<◌, ◌≤◌};
ghost use Rattle.std.proofs.Math.Bool.{So};
ghost use Rattle.trace.specs.Meaning.{frame_of};
ghost use Rattle.session.specs.Bounds.{PAIRS};
ghost use Rattle.session.specs.Stack.{supposable, placed, stands, stacked, standing, Stands};
ghost use Rattle.session.specs.inner.StackSteps.{drawn};
ghost use Rattle.session.specs.Opening.{opening_of, is_done, openable};
ghost use Rattle.session.specs.Closings.{Closings};
ghost use Rattle.session.specs.Session.{afresh, intact, blank};
ghost use Rattle.session.specs.Entries.{pair_turn, suppose_turn, take_back_turn, fault_answer, add_turn, waits_of, told_of, open_of, afresh_of, suppose_of, take_back_of, ask_of, add_of, waiting_of};

use crate::{Answer, PAIRS, Pair, Reason, Reply, Session, Stack};
use edges::force::forced;
use edges::sources::missing;
use pairs::frame::operation;
use pairs::{SC, modelled};
use trace::form::{fault_of, well_formed};
use trace::{Fault, Op, Trace, pushed};

// Whether a pair joins two different operations.
fn supposable(t: Trace, p: Pair) -> bool
    ensures { result ≡ supposable t p }
{
    operation(t, p.first) & operation(t, p.second) & (p.first != p.second)
}

// Whether a place of the stack is used by a supposable pair, or unused.
fn placed(t: Trace, k: Stack, i: usize) -> bool
    requires { i < PAIRS }
    ensures { result ≡ placed t k i }
{
    let p = k.pairs[i];
    if i < k.count {
        return supposable(t, p);
    }
    (p.first == 0) & (p.second == 0)
}

// Whether a stack keeps pairs that may be supposed, and nothing else.
fn stands(t: Trace, k: Stack) -> bool
    ensures { result ≡ stands t k }
{
    if PAIRS < k.count {
        return false;
    }
    for i in 0..PAIRS {
        if !placed(t, k, i) {
            return false;
        }
    }
    true
}

// Draws the pairs of a stack into rows.
fn draw(k: Stack, rows: &mut [u64])
    requires { k.count ≤ PAIRS }
    ensures { rows.new ≡ drawn (standing k) rows.old }
{
    for i in 0..k.count {
        let p = k.pairs[i];
        rows::put(rows, p.first, p.second);
    }
}

// The session on a trace and a model with the pairs of a stack, made afresh: one closing.
fn made(t: Trace, model: u8, k: Stack) -> Session
    requires { So (openable t model) × Stands t k }
    ensures { (C : Closings) → result ≡ afresh C t model (standing k) }
{
    let mut rows = [0u64; rows::CELLS];
    draw(k, &mut rows);
    let f = forced(t, model, &rows);
    let held = f.held;
    Session {
        trace: t,
        model,
        stack: k,
        contradicted: f.contradicted,
        held,
    }
}

// Whether a session can be opened, and why not.
fn opening(t: Trace, model: u8) -> Answer
    ensures { result ≡ opening_of t model }
{
    if !modelled(model) {
        return Answer::Refused(Reason::NoModel);
    }
    if !well_formed(t) {
        return Answer::Refused(Reason::NotWellFormed);
    }
    Answer::Done
}

// Whether nothing was turned back.
fn done(a: Answer) -> bool
    ensures { result ≡ is_done a }
{
    matches!(a, Answer::Done)
}

// Whether a session is the one that its own trace, model and pairs make.
fn intact(s: Session) -> bool
    ensures { (C : Closings) → result ≡ intact C s }
{
    let t = s.trace;
    let k = s.stack;
    if !done(opening(t, s.model)) {
        return false;
    }
    if !stands(t, k) {
        return false;
    }
    let again = made(t, s.model, k);
    if s.contradicted != again.contradicted {
        return false;
    }
    rows::equal(&s.held, &again.held)
}

// No pairs.
fn unsupposed() -> Stack
    ensures { result ≡ stacked [] }
{
    Stack {
        pairs: [Pair {
            first: 0,
            second: 0,
        }; PAIRS],
        count: 0,
    }
}

// The session beside a refusal: that of the empty trace under model 1.
fn blank() -> Session
    ensures { (C : Closings) → result ≡ blank C }
{
    made(trace::empty(), SC, unsupposed())
}

// Whether a session takes x, y as a pair to speak of, and why not.
fn pair_turn(s: Session, x: usize, y: usize) -> Answer
    ensures { (C : Closings) → result ≡ pair_turn C s x y }
{
    if !intact(s) {
        return Answer::Refused(Reason::Unlike);
    }
    let t = s.trace;
    if !(operation(t, x) & operation(t, y)) {
        return Answer::Refused(Reason::NoOperation);
    }
    if x == y {
        return Answer::Refused(Reason::OneRecord);
    }
    Answer::Done
}

// Whether a session takes x, y as one pair more, and why not.
fn suppose_turn(s: Session, x: usize, y: usize) -> Answer
    ensures { (C : Closings) → result ≡ suppose_turn C s x y }
{
    let turn = pair_turn(s, x, y);
    if !done(turn) {
        return turn;
    }
    if PAIRS <= s.stack.count {
        return Answer::Refused(Reason::TooManyPairs);
    }
    Answer::Done
}

// Whether a session has a pair to take back, and why not.
fn take_back_turn(s: Session) -> Answer
    ensures { (C : Closings) → result ≡ take_back_turn C s }
{
    if !intact(s) {
        return Answer::Refused(Reason::Unlike);
    }
    if s.stack.count == 0 {
        return Answer::Refused(Reason::NoPair);
    }
    Answer::Done
}

// A fault of one record more, as an answer.
fn fault_answer(f: Option<Fault>) -> Answer
    ensures { result ≡ fault_answer f }
{
    match f {
        None => Answer::Done,
        Some(fault) => match fault {
            Fault::PastBound => Answer::Refused(Reason::PastBound),
            Fault::FirstValue => Answer::Refused(Reason::FirstValue),
            Fault::TooMany => Answer::Refused(Reason::TooMany),
            Fault::Twice => Answer::Refused(Reason::Twice),
        },
    }
}

// Whether a session takes one record more, and why not.
fn add_turn(s: Session, op: Op) -> Answer
    ensures { (C : Closings) → result ≡ add_turn C s op }
{
    if !intact(s) {
        return Answer::Refused(Reason::Unlike);
    }
    fault_answer(fault_of(s.trace, op))
}

// Which record waits for its source, as an answer.
fn waits(found: Option<usize>) -> Answer
    ensures { result ≡ waits_of found }
{
    match found {
        Some(x) => Answer::Waits(x),
        None => Answer::Done,
    }
}

// What the table of a session says of a pair.
fn told(s: Session, x: usize, y: usize) -> Answer
    ensures { result ≡ told_of s x y }
{
    if s.contradicted {
        return Answer::Contradicted;
    }
    if rows::test(&s.held, x, y) {
        return Answer::Held;
    }
    Answer::NotHeld
}

// Opens a session with no pairs. Beside a refusal stands the session of the empty trace under model 1.
pub fn open(t: Trace, model: u8) -> Reply
    ensures { (C : Closings) → result ≡ open_of C t model }
{
    let answer = opening(t, model);
    if done(answer) {
        let session = made(t, model, unsupposed());
        return Reply { answer, session };
    }
    let session = blank();
    Reply { answer, session }
}

// The session with the pairs of a stack, for who keeps a session's parts. Where none such can be opened, it is 12 beside the one of the empty trace
// under model 1.
pub fn afresh(t: Trace, model: u8, k: Stack) -> Reply
    ensures { (C : Closings) → result ≡ afresh_of C t model k }
{
    if done(opening(t, model)) & stands(t, k) {
        let session = made(t, model, k);
        return Reply {
            answer: Answer::Done,
            session,
        };
    }
    let session = blank();
    Reply {
        answer: Answer::Refused(Reason::Unlike),
        session,
    }
}

// Supposes x before y.
pub fn suppose(s: Session, x: usize, y: usize) -> Reply
    ensures { (C : Closings) → result ≡ suppose_of C s x y }
{
    let answer = suppose_turn(s, x, y);
    if !done(answer) {
        return Reply { answer, session: s };
    }
    let mut k = s.stack;
    let at = k.count;
    let next = at + 1;
    k.pairs[at] = Pair {
        first: x,
        second: y,
    };
    k.count = next;
    let session = made(s.trace, s.model, k);
    Reply { answer, session }
}

// Takes the latest pair back, with every edge that came from it and from no other.
pub fn take_back(s: Session) -> Reply
    ensures { (C : Closings) → result ≡ take_back_of C s }
{
    let answer = take_back_turn(s);
    if !done(answer) {
        return Reply { answer, session: s };
    }
    let mut rest = s.stack;
    let last = rest.count - 1;
    rest.pairs[last] = Pair {
        first: 0,
        second: 0,
    };
    rest.count = last;
    let session = made(s.trace, s.model, rest);
    Reply { answer, session }
}

// Whether x before y is held, from the session's table.
pub fn ask(s: Session, x: usize, y: usize) -> Reply
    ensures { (C : Closings) → result ≡ ask_of C s x y }
{
    let turn = pair_turn(s, x, y);
    if !done(turn) {
        return Reply {
            answer: turn,
            session: s,
        };
    }
    let answer = told(s, x, y);
    Reply { answer, session: s }
}

// Adds a record to the session's trace; the pairs that stand stay.
pub fn add(s: Session, op: Op) -> Reply
    ensures { (C : Closings) → result ≡ add_of C s op }
{
    let answer = add_turn(s, op);
    if !done(answer) {
        return Reply { answer, session: s };
    }
    let t = pushed(s.trace, op);
    let session = made(t, s.model, s.stack);
    Reply { answer, session }
}

// The lowest record that waits for its source, or done where none does.
pub fn waiting(s: Session) -> Reply
    ensures { (C : Closings) → result ≡ waiting_of C s }
{
    if !intact(s) {
        return Reply {
            answer: Answer::Refused(Reason::Unlike),
            session: s,
        };
    }
    let answer = waits(missing(s.trace));
    Reply { answer, session: s }
}
