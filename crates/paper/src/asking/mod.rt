// What the words behind the program's name ask for.
use saying::args::{arg, arg_count};
use std::env::Env;

// Whether the numbers are wanted instead of words, and the model, if one is named: without it the first that has a list is meant.
// The flag is no Option: numbers and words are asked of any model.
#[derive(Clone, Copy)]
pub struct Wanted {
    pub numbers: bool,
    pub model: Option<u8>,
}

// Whether argument i is the word, which has one byte at least and is shorter than eight: of a longer argument nothing comes.
fn is_word(rt: &impl Env, i: usize, word: &[u8]) -> bool {
    let mut got = [0u8; 8];
    let n = arg(rt, i, &mut got);
    &got[..n] == word
}

// The model that argument i names.
fn model_named(rt: &impl Env, i: usize) -> Option<u8> {
    if is_word(rt, i, b"sc") {
        Some(pairs::SC)
    } else if is_word(rt, i, b"tso") {
        Some(pairs::TSO)
    } else if is_word(rt, i, b"pso") {
        Some(pairs::PSO)
    } else if is_word(rt, i, b"wmo") {
        Some(pairs::WMO)
    } else {
        None
    }
}

// What is asked for where the model is looked for at argument i, which may be missing; behind it nothing may stand.
fn asked_from(rt: &impl Env, i: usize, count: usize, numbers: bool) -> Option<Wanted> {
    if count <= i {
        let model = None;
        return Some(Wanted { numbers, model });
    }
    if count - i != 1 {
        return None;
    }
    let model = model_named(rt, i)?;
    Some(Wanted {
        numbers,
        model: Some(model),
    })
}

// What all the words ask for, if they can be understood.
pub fn asked(rt: &impl Env) -> Option<Wanted> {
    let count = arg_count(rt);
    if 2 <= count && is_word(rt, 1, b"numbers") {
        asked_from(rt, 2, count, true)
    } else {
        asked_from(rt, 1, count, false)
    }
}
