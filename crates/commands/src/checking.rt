//! What the command `check` does.

ghost use Rattle.std.specs.Prelude.{◌≡◌, ◌⊎◌, is_some, option_map, IfErr, IfOk};
ghost use Rattle.std.specs.Option.{option_or};
ghost use Rattle.input_texts.specs.Answer.{input_of_bytes};
ghost use Rattle.plan_scale.specs.Answer.{scale_of_bytes};
ghost use Rattle.plan_scale.specs.Answer.{is_memory as is_scale_memory};
ghost use Rattle.stream_model.specs.InputData.{BelongsTo};
ghost use Rattle.job_texts.specs.Fault.{scale_fault};
ghost use Rattle.job.specs.Leg.{job_with, leg_on, words as leg_words};
ghost use Rattle.job.specs.Start.{BeginsLeg};
ghost use Rattle.commands.specs.Checking.{AnswersCheck, ChecksPart, ChecksParts, ChecksTexts, begins_by, begins_on};

use crate::check_words::{CheckWords, warn_of_words};
use command_files::file;
use fault_places::{check_input, check_plan, check_scale};
use job::{JobFault, job_start};
use plan_model::Plan;
use restart_places::{Restart, write_places};
use std::io::writer;
use std::rt::Files;
use stream_model::Input;
use text_warnings::{TextKind, is_plain, warn};

/// What a file holds, with its name.
#[derive(Drop)]
struct NamedText<'n> {
    name: &'n str,
    bytes: Vec<u8>,
}

/// The same, lent.
#[derive(Clone, Copy)]
struct Text<'t> {
    name: &'t str,
    bytes: &'t [u8],
}

/// All that is checked: texts, and the word of a cut.
#[derive(Clone, Copy)]
struct Texts<'t> {
    plan: Text<'t>,
    input: Option<Text<'t>>,
    scale: Option<Text<'t>>,
    from: Option<Text<'t>>,
    stop: Option<&'t str>,
}

/// What the files hold that are checked.
#[derive(Drop)]
struct CheckTexts<'n> {
    plan: NamedText<'n>,
    input: Option<NamedText<'n>>,
    scale: Option<NamedText<'n>>,
    /// A savepoint.
    from: Option<NamedText<'n>>,
}

/// What the file at a path holds. Where it cannot be read, prints that.
fn checked_file<'n, R: Files + Print + AllocGlobal>(
    rt: &R,
    path: &'n str,
) -> Result<NamedText<'n>, JobFault>
    ensures { IfErr result (λ fault. (fault ≡ JobFault.Read) ⊎ (fault ≡ JobFault.Memory)) }
{
    match file(rt, path) {
        Ok(bytes) => Ok(NamedText { name: path, bytes }),
        Err(fault) => {
            if fault == JobFault::Read {
                let _ = println!(rt; "{path}: the file cannot be read");
            }
            Err(fault)
        }
    }
}

/// The same of the file at a path, where there is a path.
fn optional_checked_file<'n, R: Files + Print + AllocGlobal>(
    rt: &R,
    path: Option<&'n str>,
) -> Result<Option<NamedText<'n>>, JobFault>
    ensures given { IfOk result (λ text. is_some text ≡ is_some path.entry) }
    ensures err { IfErr result (λ fault. (fault ≡ JobFault.Read) ⊎ (fault ≡ JobFault.Memory)) }
{
    match path {
        Some(path) => Ok(Some(checked_file(rt, path)?)),
        None => Ok(None),
    }
}

/// What the files hold that words name. Of the first that cannot be read it prints that.
///
/// # Errors
///
/// `Read` where one of them cannot be read; `Memory`.
fn read_texts<'n, R: Files + Print + AllocGlobal>(
    rt: &R,
    words: &CheckWords<'n>,
) -> Result<CheckTexts<'n>, JobFault>
    ensures input { IfOk result (λ texts. is_some texts.input ≡ is_some words.now.input) }
    ensures scale { IfOk result (λ texts. is_some texts.scale ≡ is_some (option_or words.now.scale words.now.scale_option)) }
    ensures from { IfOk result (λ texts. is_some texts.from ≡ is_some words.now.from) }
    ensures err { IfErr result (λ fault. (fault ≡ JobFault.Read) ⊎ (fault ≡ JobFault.Memory)) }
{
    let plan = checked_file(rt, words.plan)?;
    let input = optional_checked_file(rt, words.input)?;
    let scale = optional_checked_file(rt, words.any_scale())?;
    let from = optional_checked_file(rt, words.from)?;
    Ok(CheckTexts {
        plan,
        input,
        scale,
        from,
    })
}

/// A text as it is lent.
fn lent<'t>(text: &'t NamedText<'_>) -> Text<'t> {
    Text {
        name: text.name,
        bytes: &text.bytes,
    }
}

/// The same of one that may be there.
fn lent_if_there<'t>(text: Option<&'t NamedText<'_>>) -> Option<Text<'t>>
    ensures { is_some result ≡ is_some text.entry }
{
    match text {
        Some(text) => Some(lent(text)),
        None => None,
    }
}

/// All texts and the cut.
fn texts_of<'t>(texts: &'t CheckTexts<'_>, stop: Option<&'t str>) -> Texts<'t>
    ensures input { is_some result.input ≡ is_some texts.now.input }
    ensures scale { is_some result.scale ≡ is_some texts.now.scale }
    ensures from { is_some result.from ≡ is_some texts.now.from }
    ensures stop { result.stop ≡ stop.entry }
{
    Texts {
        plan: lent(&texts.plan),
        input: lent_if_there(texts.input.as_ref()),
        scale: lent_if_there(texts.scale.as_ref()),
        from: lent_if_there(texts.from.as_ref()),
        stop,
    }
}

/// Prints the places at which a scale of the plan is refused, if there is one.
fn check_its_scale<R: Print + AllocGlobal>(
    rt: &R,
    plan: &Plan,
    scale: Option<Text<'_>>,
) -> Result<(), JobFault>
    ensures { ChecksPart is_scale_memory scale_fault (scale_of_bytes plan.now) (option_map (λ text. text.bytes.now) scale.entry) result }
{
    match scale {
        Some(text) => Ok(check_scale(rt.alloc(), plan, text.bytes, text.name, &mut writer(rt))?),
        None => Ok(()),
    }
}

/// Prints why a leg cannot begin, or not stop as it is to.
fn check_its_start<R: Print + AllocGlobal>(
    rt: &R,
    plan: &Plan,
    input: &Input,
    restart: Restart<'_>,
) -> Result<(), JobFault>
    requires { BelongsTo plan.now input.now }
    ensures { BeginsLeg (job_with plan.now input.now (option_map (λ bytes. bytes.now) restart.entry.savepoint) (leg_words None (option_map (λ word. word.now) restart.entry.stop))) result }
{
    let answer = job_start(rt.alloc(), plan, input, restart.savepoint, restart.stop);
    if let Err(fault) = answer {
        write_places(rt.alloc(), plan, input, restart, fault, &mut writer(rt));
    }
    answer
}

/// The same where a scale of the plan is refused, or else there.
fn check_at_scale<R: Print + AllocGlobal>(
    rt: &R,
    plan: &Plan,
    input: &Input,
    scale: Text<'_>,
    restart: Restart<'_>,
) -> Result<(), JobFault>
    requires { BelongsTo plan.now input.now }
    ensures { BeginsLeg (leg_on plan.now input.now scale.entry.bytes.now (option_map (λ bytes. bytes.now) restart.entry.savepoint) (leg_words None (option_map (λ word. word.now) restart.entry.stop))) result }
{
    check_scale(rt.alloc(), plan, scale.bytes, scale.name, &mut writer(rt))?;
    check_its_start(rt, plan, input, restart)
}

/// The same at the scale that is named, or at any.
fn check_leg<R: Print + AllocGlobal>(
    rt: &R,
    plan: &Plan,
    input: &Input,
    scale: Option<Text<'_>>,
    restart: Restart<'_>,
) -> Result<(), JobFault>
    requires { BelongsTo plan.now input.now }
    ensures { BeginsLeg (begins_on plan.now input.now (option_map (λ text. text.bytes.now) scale.entry) (option_map (λ bytes. bytes.now) restart.entry.savepoint) (option_map (λ word. word.now) restart.entry.stop)) result }
{
    match scale {
        Some(scale) => check_at_scale(rt, plan, input, scale, restart),
        None => check_its_start(rt, plan, input, restart),
    }
}

/// What a leg is to go on from, and where it is to stop.
fn restart_of<'r>(from: Option<Text<'r>>, stop: Option<&'r str>) -> Restart<'r>
    ensures savepoint { option_map (λ bytes. bytes.now) result.savepoint ≡ (option_map (λ text. text.bytes.now) from.entry) }
    ensures stop { result.stop ≡ stop.entry }
{
    match from {
        Some(text) => Restart {
            file: text.name,
            savepoint: Some(text.bytes),
            stop,
        },
        None => Restart {
            file: "",
            savepoint: None,
            stop,
        },
    }
}

/// Prints the places at which an input of the plan is refused, or else its scale, or else a leg over it. Of one that is
/// not refused it notes whether the text is plain.
fn check_job<R: Print + AllocGlobal>(
    rt: &R,
    plan: &Plan,
    input: Text<'_>,
    scale: Option<Text<'_>>,
    restart: Restart<'_>,
    is_plain_input: &mut bool,
) -> Result<(), JobFault>
    ensures { BeginsLeg (begins_by plan.now input.entry.bytes.now (option_map (λ text. text.bytes.now) scale.entry) (option_map (λ bytes. bytes.now) restart.entry.savepoint) (option_map (λ word. word.now) restart.entry.stop)) result }
{
    let read = check_input(rt.alloc(), plan, input.bytes, input.name, &mut writer(rt))?;
    *is_plain_input = is_plain(input.bytes, &read);
    check_leg(rt, plan, &read, scale, restart)
}

/// Prints the places at which what is named of a plan is refused: a scale alone, or an input, a scale and a leg.
fn check_parts<R: Print + AllocGlobal>(
    rt: &R,
    plan: &Plan,
    texts: Texts<'_>,
    is_plain_input: &mut bool,
) -> Result<(), JobFault>
    ensures { ChecksParts plan.now (option_map (λ text. text.bytes.now) texts.entry.input) (option_map (λ text. text.bytes.now) texts.entry.scale) (option_map (λ text. text.bytes.now) texts.entry.from) (option_map (λ word. word.now) texts.entry.stop) result }
{
    match texts.input {
        Some(input) => {
            let restart = restart_of(texts.from, texts.stop);
            check_job(rt, plan, input, texts.scale, restart, is_plain_input)
        }
        None => check_its_scale(rt, plan, texts.scale),
    }
}

/// Prints the places at which a plan is refused, or else what is named of it.
fn check_texts<R: Print + AllocGlobal>(
    rt: &R,
    texts: Texts<'_>,
    is_plain_input: &mut bool,
) -> Result<(), JobFault>
    ensures { ChecksTexts texts.entry.plan.bytes.now (option_map (λ text. text.bytes.now) texts.entry.input) (option_map (λ text. text.bytes.now) texts.entry.scale) (option_map (λ text. text.bytes.now) texts.entry.from) (option_map (λ word. word.now) texts.entry.stop) result }
{
    let plan = texts.plan;
    match check_plan(rt.alloc(), plan.bytes, plan.name, &mut writer(rt)) {
        Ok(read) => check_parts(rt, &read, texts, is_plain_input),
        Err(fault) => Err(JobFault::from(fault)),
    }
}

/// Prints what in a text is easily overlooked.
fn warn_of_text<R: Print + AllocGlobal>(rt: &R, text: Text<'_>, kind: TextKind) {
    warn(rt.alloc(), text.bytes, text.name, kind, &mut writer(rt));
}

/// The same of all texts, whether they are refused or not. A plain input has nothing to warn of.
fn warn_of_texts<R: Print + AllocGlobal>(rt: &R, texts: Texts<'_>, is_plain_input: bool) {
    warn_of_text(rt, texts.plan, TextKind::Plan);
    if let Some(input) = texts.input {
        if !is_plain_input {
            warn_of_text(rt, input, TextKind::Input);
        }
    }
    if let Some(scale) = texts.scale {
        warn_of_text(rt, scale, TextKind::Scale);
    }
}

/// Prints the places at which a plan is refused, or else an input of it, or else a scale, where they are named, or
/// else, with an input, why a leg cannot begin at the savepoint that is named, or stop at the cut; and then the
/// warnings of each text, and of the words of a leg. Where there is no memory for the answer it prints nothing. Of a
/// file that cannot be read it prints the name.
///
/// # Errors
///
/// `Number` where a savepoint or a cut is named, and no input, or two scales are; `Read` where a file cannot be read;
/// else what `leg` answers before its first step: the fault of the plan, the input, the scale, the savepoint or the
/// cut, the first of these; `Memory`.
pub fn check<R: Files + Print + AllocGlobal>(rt: &R, words: &CheckWords<'_>) -> Result<(), JobFault>
    ensures { AnswersCheck words.now result }
{
    if words.are_wrong() {
        return Err(JobFault::Number);
    }
    let read = read_texts(rt, words)?;
    let texts = texts_of(&read, words.stop);
    let mut is_plain_input = false;
    let answer = check_texts(rt, texts, &mut is_plain_input);
    if answer != Err(JobFault::Memory) {
        warn_of_texts(rt, texts, is_plain_input);
        warn_of_words(rt, words);
    }
    answer
}
