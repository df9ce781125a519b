// The lines of an answer.
ghost use Rattle.std.specs.Prelude.{◌++◌, ◌+◌, ◌≤◌, length};
ghost use Rattle.trace.specs.Bounds.{RECORDS};
ghost use Rattle.text.specs.Number.{decimal};
ghost use Rattle.verdict.specs.VerdictOf.{RecordNumbers};
ghost use Rattle.report.specs.Bounds.{LONG, SAID, NAME, VERDICT-LINE};
ghost use Rattle.report.specs.Words.{order, no_order, circle, by};
ghost use Rattle.report.specs.Report.{spaced, saying, name_of, line_of, refusal_of};
ghost use Rattle.report.specs.Wrote.{Wrote};

use crate::pieces::{put_decimal, put_numbers, put_rules, put_word};
use verdict::{Outcome, Verdict};

// A word, and a number behind it.
fn put_after(word: &[u8], n: usize, out: &mut [u8], at: usize) -> usize
    requires { at + length word.now + LONG ≤ length out.old }
    ensures { Wrote out.old at (word.now ++ decimal n) out.new result × (result ≤ at + length word.now + LONG) }
{
    let end = put_word(word, out, at);
    put_decimal(n, out, end)
}

// A circle and its rules.
fn put_circle(operations: &[u16], rules: &[u8], out: &mut [u8], at: usize) -> usize
    requires { (at + SAID ≤ length out.old) × (length operations.now ≤ RECORDS) × RecordNumbers operations.now × (length rules.now ≤ RECORDS) }
    ensures { Wrote out.old at ((no_order ++ circle) ++ spaced operations.now ++ by ++ spaced rules.now) out.new result × (result ≤ at + SAID) }
{
    let named = put_word(b"no order, circle", out, at);
    let listed = put_numbers(operations, out, named);
    let end = put_word(b" by", out, listed);
    put_rules(rules, out, end)
}

// An order.
fn put_order(operations: &[u16], out: &mut [u8], at: usize) -> usize
    requires { (at + SAID ≤ length out.old) × (length operations.now ≤ RECORDS) × RecordNumbers operations.now }
    ensures { Wrote out.old at (order ++ spaced operations.now) out.new result × (result ≤ at + SAID) }
{
    let end = put_word(b"order", out, at);
    put_numbers(operations, out, end)
}

// What is said of a verdict.
fn put_said(v: Verdict, out: &mut [u8], at: usize) -> usize
    requires { (at + SAID ≤ length out.old) × (v.len ≤ RECORDS) × RecordNumbers v.operations }
    ensures { Wrote out.old at (saying v) out.new result × (result ≤ at + SAID) }
{
    match v.outcome {
        Outcome::NoSource(x) => put_after(b"no order, no source ", x, out, at),
        Outcome::Circle => put_circle(&v.operations[..v.len], &v.rules[..v.len], out, at),
        Outcome::Order => put_order(&v.operations[..v.len], out, at),
        Outcome::NoneLeft => put_word(b"no order, none left", out, at),
        Outcome::NoModel => put_after(b"refused ", 9, out, at),
        Outcome::NotWellFormed => put_after(b"refused ", 10, out, at),
    }
}

// The name of a model; none where there is no such model.
fn put_name(model: u8, out: &mut [u8], at: usize) -> usize
    requires { at + NAME ≤ length out.old }
    ensures { Wrote out.old at (name_of model) out.new result × (result ≤ at + NAME) }
{
    match model {
        1 => put_word(b"SC", out, at),
        2 => put_word(b"TSO", out, at),
        3 => put_word(b"PSO", out, at),
        4 => put_word(b"WMO", out, at),
        _ => at,
    }
}

// The line of a verdict, under the model's name.
pub(crate) fn put_line(model: u8, v: Verdict, out: &mut [u8], at: usize) -> usize
    requires { (at + VERDICT-LINE ≤ length out.old) × (v.len ≤ RECORDS) × RecordNumbers v.operations }
    ensures { Wrote out.old at (line_of model v) out.new result × (result ≤ at + VERDICT-LINE) }
{
    let named = put_name(model, out, at);
    let begun = put_word(b": ", out, named);
    let said = put_said(v, out, begun);
    put_word(b"\n", out, said)
}

// The line of a text that is turned back.
pub(crate) fn put_refusal(n: usize, line: usize, out: &mut [u8], at: usize) -> usize
    requires { at + VERDICT-LINE ≤ length out.old }
    ensures { Wrote out.old at (refusal_of n line) out.new result × (result ≤ at + VERDICT-LINE) }
{
    let named = put_after(b"refused ", n, out, at);
    let begun = put_word(b" line ", out, named);
    let end = put_decimal(line, out, begun);
    put_word(b"\n", out, end)
}
