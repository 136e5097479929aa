//! The options of `take`, read one after another.
ghost use Rattle.std.specs.Prelude.{◌≡◌, ◌+◌, ◌<◌, length, IfOk, IfErr, codes, drop, ◌∷◌};
ghost use Rattle.mmt_command.specs.Words.{texts, IsWrongAt};
ghost use Rattle.mmt_command.specs.Commands.{IsCommand};
ghost use Rattle.mmt_command.specs.Reading.{HasRead, choice_of, taken};

use crate::assumed::assumed_at;
use crate::flows::flow_at;
use crate::numbers::{is_at, number_at};
use crate::take_words::TakeOptions;
use mmt_model::{Flow, FlowChoice};

/// The options that have been given so far: the bound in bytes, the flow, the number of the first sample, the
/// timescale in units a second, and the window and the delay in ticks.
#[derive(Clone, Copy)]
pub struct Given {
    pub bound: Option<u32>,
    pub flow: Option<Flow>,
    pub sample_base: Option<u32>,
    pub timescale: Option<u32>,
    pub assumed: Option<(u32, u32)>,
}

// Where the words give no bound, in bytes.
const DEFAULT_BOUND: u32 = 1 << 26;

// Where the words give no timescale, in units a second.
const DEFAULT_TIMESCALE: u32 = 90_000;

// The flow alone where one is given, otherwise any.
fn choice(flow: Option<Flow>) -> FlowChoice
    ensures { result ≡ choice_of flow }
{
    match flow {
        Some(flow) => FlowChoice::One(flow),
        None => FlowChoice::Any,
    }
}

impl Given {
    /// No option has been given.
    pub const NONE: Given = Given {
        bound: None,
        flow: None,
        sample_base: None,
        timescale: None,
        assumed: None,
    };

    /// What is given, and the defaults of what is not.
    pub fn taken(&self) -> TakeOptions
        ensures { result ≡ taken self.now }
    {
        TakeOptions {
            bound: self.bound.unwrap_or(DEFAULT_BOUND),
            flow: choice(self.flow),
            sample_base: self.sample_base.unwrap_or(1),
            timescale: self.timescale.unwrap_or(DEFAULT_TIMESCALE),
            assumed: self.assumed,
        }
    }
}

// The bound after its name.
fn bound_at(words: &[String], at: usize, given: Given) -> Result<Given, u32>
    requires read { HasRead given (texts words.now) at }
    requires name { drop at (texts words.now) ≡ codes "--bound" ∷ drop (at + 1) (texts words.now) }
    ensures read { IfOk result (λ more. HasRead more (texts words.now) (at + 2)) }
    ensures wrong { IfErr result (λ index. IsWrongAt IsCommand (texts words.now) index) }
{
    if given.bound.is_some() {
        return Err(at as u32);
    }
    match number_at(words, at + 1, 1, 1 << 30) {
        Some(bound) => Ok(Given {
            bound: Some(bound),
            ..given
        }),
        None => Err(at as u32 + 1),
    }
}

// The flow after its name.
fn chosen_at(words: &[String], at: usize, given: Given) -> Result<Given, u32>
    requires read { HasRead given (texts words.now) at }
    requires name { drop at (texts words.now) ≡ codes "--flow" ∷ drop (at + 1) (texts words.now) }
    ensures read { IfOk result (λ more. HasRead more (texts words.now) (at + 2)) }
    ensures wrong { IfErr result (λ index. IsWrongAt IsCommand (texts words.now) index) }
{
    if given.flow.is_some() {
        return Err(at as u32);
    }
    match flow_at(words, at + 1) {
        Some(flow) => Ok(Given {
            flow: Some(flow),
            ..given
        }),
        None => Err(at as u32 + 1),
    }
}

// The number of the first sample after its name.
fn base_at(words: &[String], at: usize, given: Given) -> Result<Given, u32>
    requires read { HasRead given (texts words.now) at }
    requires name { drop at (texts words.now) ≡ codes "--sample-base" ∷ drop (at + 1) (texts words.now) }
    ensures read { IfOk result (λ more. HasRead more (texts words.now) (at + 2)) }
    ensures wrong { IfErr result (λ index. IsWrongAt IsCommand (texts words.now) index) }
{
    if given.sample_base.is_some() {
        return Err(at as u32);
    }
    match number_at(words, at + 1, 0, 1) {
        Some(base) => Ok(Given {
            sample_base: Some(base),
            ..given
        }),
        None => Err(at as u32 + 1),
    }
}

// The timescale after its name.
fn timescale_at(words: &[String], at: usize, given: Given) -> Result<Given, u32>
    requires read { HasRead given (texts words.now) at }
    requires name { drop at (texts words.now) ≡ codes "--timescale" ∷ drop (at + 1) (texts words.now) }
    ensures read { IfOk result (λ more. HasRead more (texts words.now) (at + 2)) }
    ensures wrong { IfErr result (λ index. IsWrongAt IsCommand (texts words.now) index) }
{
    if given.timescale.is_some() {
        return Err(at as u32);
    }
    match number_at(words, at + 1, 1, u32::MAX) {
        Some(timescale) => Ok(Given {
            timescale: Some(timescale),
            ..given
        }),
        None => Err(at as u32 + 1),
    }
}

// The window and the delay after their name.
fn window_at(words: &[String], at: usize, given: Given) -> Result<Given, u32>
    requires read { HasRead given (texts words.now) at }
    requires name { drop at (texts words.now) ≡ codes "--assume" ∷ drop (at + 1) (texts words.now) }
    ensures read { IfOk result (λ more. HasRead more (texts words.now) (at + 2)) }
    ensures wrong { IfErr result (λ index. IsWrongAt IsCommand (texts words.now) index) }
{
    if given.assumed.is_some() {
        return Err(at as u32);
    }
    match assumed_at(words, at + 1) {
        Some(assumed) => Ok(Given {
            assumed: Some(assumed),
            ..given
        }),
        None => Err(at as u32 + 1),
    }
}

/// The options with the one whose name stands at a place, or the index of the first wrong word.
pub fn read_option(words: &[String], at: usize, given: Given) -> Result<Given, u32>
    requires read { HasRead given (texts words.now) at }
    requires more { at < length words.now }
    ensures read { IfOk result (λ more. HasRead more (texts words.now) (at + 2)) }
    ensures wrong { IfErr result (λ index. IsWrongAt IsCommand (texts words.now) index) }
{
    if is_at(words, at, "--bound") {
        return bound_at(words, at, given);
    }
    if is_at(words, at, "--flow") {
        return chosen_at(words, at, given);
    }
    if is_at(words, at, "--sample-base") {
        return base_at(words, at, given);
    }
    if is_at(words, at, "--timescale") {
        return timescale_at(words, at, given);
    }
    if is_at(words, at, "--assume") {
        return window_at(words, at, given);
    }
    Err(at as u32)
}
