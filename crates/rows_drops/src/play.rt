//! The steps of a row, one after another.

use crate::advance::How;
use crate::begin::State;
use crate::scene::Scene;
use crate::script::{Asked, Kind, Polls, Script, Step};
use crate::transcript::Part;
use rows_text::RowError;
use std::mem;
use std::random::RandomSource;
use std::sync::Wait;

/// What a play results in.
#[derive(Drop)]
pub enum Played {
    /// Its transcript.
    Whole(String),
    /// The call of this step has its answer before it is polled as often as in this play, which the row passes over.
    Over(usize),
}

/// Plays a row, where the call of each step is polled as often as that says.
///
/// # Errors
/// `NotUnderstood` where a step can't be made, `OutOfMemory`.
pub fn play<'r, R: Wait + RandomSource + AllocGlobal>(
    rt: &'r R,
    script: &'r Script,
) -> Result<Played, RowError> {
    let mut scene = Scene::new(rt.alloc(), script)?;
    let mut first: Option<Box<State<'r, R>>> = None;
    let mut second: Option<Box<State<'r, R>>> = None;
    for (place, step) in script.steps.iter().enumerate() {
        if !make(rt, &mut scene, &mut first, &mut second, step)? {
            return Ok(Played::Over(place));
        }
    }
    Ok(Played::Whole(scene.take_transcript(rt.alloc())))
}

/// Makes a step, where these calls are held, the first longer than the second. Returns whether the play goes on.
fn make<'r, R: Wait + RandomSource + AllocGlobal>(
    rt: &'r R,
    scene: &mut Scene,
    first: &mut Option<Box<State<'r, R>>>,
    second: &mut Option<Box<State<'r, R>>>,
    step: &'r Step,
) -> Result<bool, RowError> {
    let Some(asked) = &step.asked else {
        match step.kind {
            Kind::Drop => drop(mem::replace(first, second.take())),
            Kind::Poll => go_on_first(rt, scene, first, How::Polls(1))?,
            Kind::End => go_on_first(rt, scene, first, How::End)?,
            kind => act(rt, scene, kind)?,
        }
        return Ok(true);
    };
    let answer = match step.kind {
        Kind::Call => scene.make(rt, asked, How::End)?,
        Kind::Drop => scene.make(rt, asked, How::Polls(step.number))?,
        Kind::Hold => hold(rt, scene, first, second, asked, step.number)?,
        _ => return Err(RowError::NotUnderstood),
    };
    is_on(rt, scene, step, answer)
}

/// Makes a step without a call, which is of none that is held.
fn act<R: Wait + RandomSource + AllocGlobal>(
    rt: &R,
    scene: &mut Scene,
    kind: Kind,
) -> Result<(), RowError> {
    match kind {
        Kind::Discard => drop(scene.gains.transfers.pop_front()),
        Kind::Return => drop(scene.gains.lent.take()),
        Kind::Sent => scene.show(rt, Part::Sent)?,
        Kind::Closed => scene.show(rt, Part::Closed)?,
        _ => return Err(RowError::NotUnderstood),
    }
    Ok(())
}

/// The first call that is held goes on so far, and its answer is shown.
fn go_on_first<R: Wait + RandomSource + AllocGlobal>(
    rt: &R,
    scene: &mut Scene,
    first: &mut Option<Box<State<'_, R>>>,
    how: How,
) -> Result<(), RowError> {
    match first {
        Some(state) => {
            let answer = scene.go_on(rt, state, how)?;
            scene.show_answer(rt, answer.as_deref())
        }
        None => Err(RowError::NotUnderstood),
    }
}

/// A call is polled so often, and held. Two are held at most: a third takes the place of the second.
fn hold<'r, R: Wait + RandomSource + AllocGlobal>(
    rt: &'r R,
    scene: &mut Scene,
    first: &mut Option<Box<State<'r, R>>>,
    second: &mut Option<Box<State<'r, R>>>,
    asked: &'r Asked,
    number: usize,
) -> Result<Option<String>, RowError> {
    let mut state = scene.begin(rt, asked)?;
    let answer = scene.go_on(rt, &mut state, How::Polls(number));
    let held = if first.is_none() { first } else { second };
    drop(held.replace(state));
    answer
}

/// The answer of a step's call is shown, where it has one. Returns whether the play goes on.
fn is_on<R: Wait + RandomSource + AllocGlobal>(
    rt: &R,
    scene: &mut Scene,
    step: &Step,
    answer: Option<String>,
) -> Result<bool, RowError> {
    let waits = answer.is_none();
    let number = step.number;
    let Polls {
        first,
        last,
        is_open,
        is_partial,
    } = step.polls;
    if !waits && (is_partial || is_open && number > first) {
        return Ok(false);
    }
    if !waits || is_open && number >= last {
        scene.show_answer(rt, answer.as_deref())?;
    }
    Ok(true)
}
