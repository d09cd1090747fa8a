//! One leg of a job, from bytes to bytes.

ghost use Rattle.std.specs.Prelude.{◌≡◌, false, IfOk, IfSome, None, option_map};
ghost use Rattle.answers.specs.Answer.{Gives};
ghost use Rattle.layout_rules.specs.Scale.{IsScale};
ghost use Rattle.redistribute.specs.Begins.{IsStartIn};
ghost use Rattle.savepoint_codec.specs.Answer.{Gives as Reads};
ghost use Rattle.savepoint_codec.specs.Layout.{IsSavepoint};
ghost use Rattle.savepoint_index.specs.Answer.{savepoint_of_bytes};
ghost use Rattle.stream_model.specs.InputData.{BelongsTo};
ghost use Rattle.job_texts.specs.Fault.{is_memory};
ghost use Rattle.job_texts.specs.Tells.{KeepsWriter};
ghost use Rattle.job.specs.Leg.{AreLegRows, GivesLeg, IsGivenBy, TellsLeg, aims_said, job_with, leg_by, leg_job, leg_on, leg_said, left_in, saves_said, start_said, stop_said, words};
ghost use Rattle.job.specs.Asked.{AreAims, EndsLeg, EndsSo, IsEndSo, TellsAskedLeg, aims_in, is_asked, may_ask, stop_in, words_of};

use crate::reading::read_input;
use core_steps::Finish;
use job_legs::saved_bytes;
use job_texts::{JobFault, read_cut, read_cuts, sort_rows, text_of_rows, write_text};
use layout_rules::Scale;
use legs::Cut;
use logical_plan::ReadPlan;
use plain_data::Items;
use plan_model::{Plan, Row};
use plan_scale::ReadScale;
use redistribute::Start;
use restore::check;
use savepoint_codec::{SaveFault, Savepoint};
use savepoint_index::decode;
use std::alloc::Global;
use std::io::Write;
use std::sync::atomic::AtomicBool;
use std::sync::{Arc, Wait};
use std::thread::Threads;
use std::time::Clock;
use stream_model::Input;
use thread_runner::{Gate, Stop, run_leg_from};
use window_state::HashKeys;

/// Where a leg begins: at the savepoint that `from` has the bytes of, or from nothing at the front of the input.
///
/// # Errors
///
/// The savepoint's fault; `Restore` where the job cannot go on from it in this input; `Memory`.
#[tactic(auto, unfolding(crate::specs::Leg::start_said))]
pub fn start_of(
    alloc: Global,
    plan: &Plan,
    input: &Input,
    from: Option<&[u8]>,
) -> Result<Start, JobFault>
    requires { BelongsTo plan.now input.now }
    ensures reads { Gives is_memory (λ start. start) result (start_said plan.now input.now (option_map (λ bytes. bytes.now) from.entry)) }
    ensures in_input { IfOk result (λ start. IsStartIn plan.now input.now start) }
{
    let Some(bytes) = from else {
        return Ok(Start::empty(alloc, plan, input)?);
    };
    let savepoint = decode(alloc, bytes)?;
    Ok(check(alloc, plan, input, &savepoint)?)
}

/// The savepoint that bytes spell, which are let go: they take more memory than what is read of them.
///
/// # Errors
///
/// The fault of the first field, from the front, that cannot be read; `Memory`.
fn decoded(alloc: Global, bytes: Vec<u8>) -> Result<Savepoint, SaveFault>
    ensures { Reads result (savepoint_of_bytes bytes.items) }
{
    decode(alloc, bytes.as_slice())
}

/// The same as `start_of`, and the bytes are let go as soon as the savepoint is read from them.
#[tactic(auto, unfolding(crate::specs::Leg::start_said))]
fn start_from(
    alloc: Global,
    plan: &Plan,
    input: &Input,
    from: Option<Vec<u8>>,
) -> Result<Start, JobFault>
    requires { BelongsTo plan.now input.now }
    ensures reads { Gives is_memory (λ start. start) result (start_said plan.now input.now (option_map (λ bytes. bytes.items) from)) }
    ensures in_input { IfOk result (λ start. IsStartIn plan.now input.now start) }
{
    let Some(bytes) = from else {
        return Ok(Start::empty(alloc, plan, input)?);
    };
    let savepoint = decoded(alloc, bytes)?;
    Ok(check(alloc, plan, input, &savepoint)?)
}

/// Where a leg is to take savepoints on its way, and to stop.
#[derive(Drop)]
enum LegStop<'a> {
    /// Savepoints at the cuts that the first word spells, or none, and a stop at the cut that the second spells, or
    /// never.
    Spelled(Option<&'a str>, Option<&'a str>),
    /// No savepoint on the way, and a stop where it has come once this word is set.
    Asked(Arc<AtomicBool>),
}

/// Where a leg takes savepoints on its way, and where it stops.
#[derive(Drop)]
struct Aims {
    saves: Items<Cut>,
    stop: Stop,
}

/// The cuts at which a leg takes savepoints on its way.
#[tactic(auto, unfolding(crate::specs::Leg::saves_said))]
fn saves_of(alloc: Global, word: Option<&str>) -> Result<Items<Cut>, JobFault>
    ensures { Gives is_memory (λ saves. saves) result (saves_said (option_map (λ word. word.now) word.entry)) }
{
    match word {
        None => Ok(Items::from_vec(Vec::new(alloc))),
        Some(word) => Ok(read_cuts(alloc, word)?),
    }
}

/// Where a leg stops that nobody asks to.
#[tactic(auto, unfolding(crate::specs::Leg::stop_said))]
fn stop_of(alloc: Global, word: Option<&str>) -> Result<Stop, JobFault>
    ensures reads { Gives is_memory stop_in result (stop_said (option_map (λ word. word.now) word.entry)) }
    ensures asks { IfOk result (λ told. may_ask told ≡ false) }
{
    match word {
        None => Ok(Stop::Never),
        Some(word) => Ok(Stop::At(read_cut(alloc, word)?)),
    }
}

/// Where a leg takes savepoints and stops, once it is read.
#[tactic(auto, unfolding(crate::specs::Leg::aims_said))]
fn aims_of(alloc: Global, stop: LegStop<'_>) -> Result<Aims, JobFault>
    ensures reads { Gives is_memory aims_in result (aims_said (words_of stop.entry)) }
    ensures asks { IfOk result (λ aims. may_ask aims.stop ≡ is_asked stop.entry) }
    ensures sound { IfOk result AreAims }
{
    match stop {
        LegStop::Spelled(saves, stop) => {
            let saves = saves_of(alloc, saves)?;
            let stop = stop_of(alloc, stop)?;
            Ok(Aims { saves, stop })
        }
        LegStop::Asked(word) => Ok(Aims {
            saves: Items::from_vec(Vec::new(alloc)),
            stop: Stop::Asked(word),
        }),
    }
}

/// The rows that a leg delivers, in the order in which they came, the savepoint that it leaves, and whether it was
/// given up.
#[derive(Drop)]
struct LegRows {
    rows: Vec<Row>,
    savepoint: Option<Savepoint>,
    abandoned: bool,
}

/// What a leg gives by how it ended.
fn rows_of(finish: Finish) -> LegRows
    ensures { IsGivenBy finish result }
{
    match finish {
        Finish::Ended(rows, sealed) => LegRows {
            rows: rows.into_vec(),
            savepoint: sealed.map(|sealed| sealed.savepoint),
            abandoned: false,
        },
        Finish::Stopped(rows, savepoint) => LegRows {
            rows: rows.into_vec(),
            savepoint: Some(savepoint),
            abandoned: false,
        },
        Finish::Abandoned(sealed) => LegRows {
            rows: sealed.rows.into_vec(),
            savepoint: Some(sealed.savepoint),
            abandoned: true,
        },
    }
}

/// Looks at a savepoint: it has a spelling.
fn see(savepoint: &Option<Savepoint>)
    ensures { IfSome savepoint.now IsSavepoint }
{
    if let Some(savepoint) = savepoint {
        let _contents = savepoint.contents();
    }
}

/// Runs a leg.
fn leg_rows<R: Threads + Wait + Clock + Sync, G: Gate>(
    rt: &R,
    alloc: Global,
    keys: HashKeys,
    plan: &Plan,
    input: &Input,
    scale: &Scale,
    start: Start,
    aims: Aims,
    gate: &G,
) -> Result<LegRows, JobFault>
    requires belongs { BelongsTo plan.now input.now }
    requires scale { IsScale plan.now scale.now }
    requires starts { IsStartIn plan.now input.now start }
    requires aims { AreAims aims }
    ensures { let job = leg_job plan.now input.now start (aims_in aims) in GivesLeg (λ given. EndsSo (may_ask aims.stop) (λ leg. AreLegRows given.abandoned leg given.rows.items given.savepoint) job) job result }
{
    let Aims { saves, stop } = aims;
    let saves = saves.as_slice();
    let finish = run_leg_from(
        rt, alloc, keys, plan, input, start, scale, saves, stop, gate,
    )?;
    let given = rows_of(finish);
    see(&given.savepoint);
    Ok(given)
}

/// What a leg leaves besides its rows.
#[derive(Drop)]
pub struct LegOut {
    /// The bytes of its savepoint: that of the cut where it stops; where it does not stop or was given up, the last of
    /// those on its way that it has taken, if it has taken one.
    pub savepoint: Option<Vec<u8>>,
    /// Whether it was given up for want of memory. Its rows are then those up to the savepoint's cut, and a leg from
    /// there goes on.
    pub abandoned: bool,
}

/// What a leg writes, and what it leaves besides.
#[derive(Drop)]
struct LegEnd {
    text: String,
    out: LegOut,
}

/// Runs a leg, and spells what it gives.
fn leg_end<R: Threads + Wait + Clock + Sync, G: Gate>(
    rt: &R,
    alloc: Global,
    keys: HashKeys,
    plan: &Plan,
    input: &Input,
    scale: &Scale,
    start: Start,
    aims: Aims,
    gate: &G,
) -> Result<LegEnd, JobFault>
    requires belongs { BelongsTo plan.now input.now }
    requires scale { IsScale plan.now scale.now }
    requires starts { IsStartIn plan.now input.now start }
    requires aims { AreAims aims }
    ensures { let job = leg_job plan.now input.now start (aims_in aims) in GivesLeg (IsEndSo (may_ask aims.stop) job) job result }
{
    let mut given = leg_rows(rt, alloc, keys, plan, input, scale, start, aims, gate)?;
    sort_rows(&mut given.rows)?;
    let text = text_of_rows(alloc, &given.rows)?;
    let savepoint = saved_bytes(alloc, &given.savepoint)?;
    let out = LegOut {
        savepoint,
        abandoned: given.abandoned,
    };
    Ok(LegEnd { text, out })
}

/// The leg of a plan, an input and a scale.
fn leg_at_scale<R: Threads + Wait + Clock + Sync, G: Gate>(
    rt: &R,
    alloc: Global,
    keys: HashKeys,
    plan: &Plan,
    input: &Input,
    scale: &Scale,
    from: Option<Vec<u8>>,
    stop: LegStop<'_>,
    gate: &G,
) -> Result<LegEnd, JobFault>
    requires belongs { BelongsTo plan.now input.now }
    requires scale { IsScale plan.now scale.now }
    ensures { EndsLeg (is_asked stop.entry) (job_with plan.now input.now (option_map (λ bytes. bytes.items) from) (words_of stop.entry)) result }
{
    let start = start_from(alloc, plan, input, from)?;
    let aims = aims_of(alloc, stop)?;
    leg_end(rt, alloc, keys, plan, input, scale, start, aims, gate)
}

/// The leg of a plan and an input.
fn leg_on_input<R: Threads + Wait + Clock + Sync, G: Gate>(
    rt: &R,
    alloc: Global,
    keys: HashKeys,
    plan: &Plan,
    input: &Input,
    scale: &[u8],
    from: Option<Vec<u8>>,
    stop: LegStop<'_>,
    gate: &G,
) -> Result<LegEnd, JobFault>
    requires { BelongsTo plan.now input.now }
    ensures { EndsLeg (is_asked stop.entry) (leg_on plan.now input.now scale.now (option_map (λ bytes. bytes.items) from) (words_of stop.entry)) result }
{
    let scale = Scale::read(alloc, plan, scale)?;
    leg_at_scale(rt, alloc, keys, plan, input, &scale, from, stop, gate)
}

/// The leg of a plan.
fn leg_of_plan<R: Threads + Wait + Clock + Sync, G: Gate>(
    rt: &R,
    alloc: Global,
    keys: HashKeys,
    plan: &Plan,
    input: Vec<u8>,
    scale: &[u8],
    from: Option<Vec<u8>>,
    stop: LegStop<'_>,
    gate: &G,
) -> Result<LegEnd, JobFault>
    ensures { EndsLeg (is_asked stop.entry) (leg_by plan.now input.items scale.now (option_map (λ bytes. bytes.items) from) (words_of stop.entry)) result }
{
    let input = read_input(alloc, plan, input)?;
    leg_on_input(rt, alloc, keys, plan, &input, scale, from, stop, gate)
}

/// The leg that texts tell.
fn leg_of_texts<R: Threads + Wait + Clock + Sync, G: Gate>(
    rt: &R,
    alloc: Global,
    keys: HashKeys,
    plan: &[u8],
    input: Vec<u8>,
    scale: &[u8],
    from: Option<Vec<u8>>,
    stop: LegStop<'_>,
    gate: &G,
) -> Result<LegEnd, JobFault>
    ensures { EndsLeg (is_asked stop.entry) (leg_said plan.now input.items scale.now (option_map (λ bytes. bytes.items) from) (words_of stop.entry)) result }
{
    let plan = Plan::read(alloc, plan)?;
    leg_of_plan(rt, alloc, keys, &plan, input, scale, from, stop, gate)
}

/// Runs one leg of a job at a scale, from nothing or from the savepoint that `from` has the bytes of, to the end of the
/// input or to the cut that the word `stop` spells, and writes the text of its rows: those that become due on the way,
/// one line each, in the order of start and key. On its way it takes savepoints at the cuts that the word `saves`
/// spells, with a `+` between them, and goes on. Where memory runs out behind one of them that is complete, the leg is
/// given up: it writes the rows up to that one's cut, and leaves that savepoint. Each of its tasks runs in a thread of
/// its own, and passes the gate before each of its steps.
///
/// # Errors
///
/// The plan's fault, else the input's, the scale's, the savepoint's, `Restore` where the job cannot go on from it,
/// `Cut`; then `Leg` with `StopRange` where a leg from there cannot stop so, else with `SaveRange` where it cannot take
/// its savepoints on the way there, or with `Threads` where a thread was refused; `Write` where the writer refuses the
/// text; `Memory`.
pub fn job_leg<R: Threads + Wait + Clock + Sync, G: Gate, W: Write>(
    rt: &R,
    alloc: Global,
    keys: HashKeys,
    plan: &[u8],
    input: Vec<u8>,
    scale: &[u8],
    from: Option<Vec<u8>>,
    saves: Option<&str>,
    stop: Option<&str>,
    gate: &G,
    out: &mut W,
) -> Result<LegOut, JobFault>
    ensures answers { TellsLeg left_in (leg_said plan.now input.items scale.now (option_map (λ bytes. bytes.items) from) (words (option_map (λ word. word.now) saves.entry) (option_map (λ word. word.now) stop.entry))) result (W.contents out.old) (W.contents out.new) }
    ensures kept { KeepsWriter result (W.contents out.old) (W.contents out.new) }
{
    let stop = LegStop::Spelled(saves, stop);
    let end = leg_of_texts(rt, alloc, keys, plan, input, scale, from, stop, gate)?;
    write_text(out, end.text.as_str())?;
    Ok(end.out)
}

/// Runs one leg of a job as [`job_leg`] does, but to the end of the input or, once the word `asked` is set, to where it
/// has come then. It takes no savepoint on its way. Where it stops it gives the bytes of the savepoint that it leaves
/// there: at a cut of the input that no one knows before, and it has written the text of just those rows that a leg
/// writes that is to stop at that cut. A word that is set before stops the leg where it begins.
///
/// # Errors
///
/// The plan's fault, else the input's, the scale's, the savepoint's, `Restore` where the job cannot go on from it; then
/// `Leg` with `Threads` where a thread was refused; `Write` where the writer refuses the text; `Memory`.
pub fn job_leg_asked<R: Threads + Wait + Clock + Sync, G: Gate, W: Write>(
    rt: &R,
    alloc: Global,
    keys: HashKeys,
    plan: &[u8],
    input: Vec<u8>,
    scale: &[u8],
    from: Option<Vec<u8>>,
    asked: Arc<AtomicBool>,
    gate: &G,
    out: &mut W,
) -> Result<LegOut, JobFault>
    ensures answers { TellsAskedLeg left_in (leg_said plan.now input.items scale.now (option_map (λ bytes. bytes.items) from) (words None None)) result (W.contents out.old) (W.contents out.new) }
    ensures kept { KeepsWriter result (W.contents out.old) (W.contents out.new) }
{
    let stop = LegStop::Asked(asked);
    let end = leg_of_texts(rt, alloc, keys, plan, input, scale, from, stop, gate)?;
    write_text(out, end.text.as_str())?;
    Ok(end.out)
}
