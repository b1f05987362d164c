//! Running the command that words ask for, between the ends that they name.

ghost use Rattle.std.specs.Prelude.{◌≡◌, ◌⊎◌, ℕ, List, Some, Err, IfOk, IfErr, OnOk, map, string_bytes};
ghost use Rattle.cube_core.specs.declared.fault.Fault.{Fault as Refusal};
ghost use Rattle.cube_core.specs.declared.fault.Fault.TheVariants.{Read, Usage, WantOfMemory, Write};
ghost use Rattle.header_bits.specs.declared.params.Params.{Params as Parameters};
ghost use Rattle.header_bits.specs.Lawful.{params_fault};
ghost use Rattle.command_words.specs.declared.settings.Settings.{Settings as Asked};
ghost use Rattle.command_words.specs.Words.{Ask, AskForNone};
ghost use Rattle.command_devices.specs.Devices.{GaveWithin};
ghost use Rattle.command_devices.specs.Reading.{ToldAsRead};
ghost use Rattle.command_devices.specs.Writing.{IsWrite};
ghost use Rattle.ccsds_command.specs.Command.{Does, HasLayout, HasNoEnd, IsFaultOf, IsPlanned, IsRefusedFirst, IsUnfilled, IsUnplanned, Ran};
ghost use Rattle.ccsds_command.specs.Command.{checked_params, limit_of, name_in, name_out};

use crate::compress::run_compress;
use crate::expand::run_expand;
use crate::inspect::run_inspect;
use crate::piped::run_piped;
use crate::show::run_show;
use coder_pipe::OpenGate;
use command_devices::opener::Opener;
use command_devices::sink::Sink;
use command_devices::source::Source;
use command_words::command_line::settings_of;
use command_words::settings::Settings;
use cube_core::fault::Fault;
use std::alloc::Global;
use std::sync::Wait;
use std::thread::Threads;

/// A command that was run: its ends, and its result.
#[derive(Drop)]
pub struct Ended<S: Drop, K: Drop> {
    pub input: S,
    pub output: K,
    pub answer: Result<(), Fault>,
}

/// Runs the command that words ask for, between the ends that they name.
///
/// Returns `Usage` if they ask for none; `WantOfMemory` if the settings can't be allocated; and, if an end can't be opened,
/// the refusal of `run_command`. Otherwise it returns the ends with the command's own result. Unlawful parameters and
/// a plan that there can't be are refused with both ends as they were opened.
pub fn run_words<R: Threads + Wait + Sync, O: Opener>(
    rt: &R,
    alloc: Global,
    opener: &O,
    words: &[String],
) -> Result<Ended<O::Input, O::Output>, Fault>
    ensures ran { IfOk result (λ ended. (settings : Asked) × Ask (map string_bytes words.now) settings × (s : O.Input) × (k : O.Output)
        × O.opens opener.now (name_in settings) s × O.makes opener.now s (name_out settings) k
        × Ran settings (O.Input.left s) (O.Input.failures s) (O.Input.failures ended.input) (O.Output.taken k) (O.Output.taken ended.output)
        (O.Output.failures k) (O.Output.failures ended.output) (O.Output.stalls k) (O.Output.stalls ended.output) ended.answer) }
    ensures refused_first { IfOk result (λ ended. (settings : Asked) × Ask (map string_bytes words.now) settings
        × ((fault : Refusal) → IsRefusedFirst settings fault → (ended.answer ≡ Err fault) × O.opens opener.now (name_in settings) ended.input
        × O.makes opener.now ended.input (name_out settings) ended.output)) }
    ensures refused { IfErr result (λ e. ((e ≡ Usage) × AskForNone (map string_bytes words.now))
        ⊎ ((e ≡ WantOfMemory) ⊎ ((settings : Asked) × Ask (map string_bytes words.now) settings
        × HasNoEnd (O.opens opener.now) (O.has_none opener.now) (O.makes_none opener.now) settings e))) }
{
    let settings = settings_of(alloc, words)?;
    run_command(rt, alloc, opener, &settings)
}

/// Opens the ends that a command names, the input first, and runs the command between them.
///
/// Returns `Read` if the input can't be opened; then no output was created. Returns `Write` with 0 bytes if the
/// output can't be created; then nothing was read. Otherwise it returns the ends with the command's own result.
/// Unlawful parameters and a plan that there can't be are refused with both ends as they were opened.
pub fn run_command<R: Threads + Wait + Sync, O: Opener>(
    rt: &R,
    alloc: Global,
    opener: &O,
    settings: &Settings,
) -> Result<Ended<O::Input, O::Output>, Fault>
    requires { HasLayout settings.now }
    ensures ran { IfOk result (λ ended. (s : O.Input) × (k : O.Output) × O.opens opener.now (name_in settings.now) s
        × O.makes opener.now s (name_out settings.now) k × Ran settings.now (O.Input.left s) (O.Input.failures s) (O.Input.failures ended.input)
        (O.Output.taken k) (O.Output.taken ended.output) (O.Output.failures k) (O.Output.failures ended.output) (O.Output.stalls k)
        (O.Output.stalls ended.output) ended.answer) }
    ensures unfilled { IfOk result (λ ended. (s : O.Input) × O.opens opener.now (name_in settings.now) s
        × IfErr ended.answer (IsUnfilled settings.now (O.Input.left s) (O.Input.left ended.input))) }
    ensures planned { IfOk result (λ ended. OnOk ended.answer (IsPlanned settings.now)) }
    ensures refused_first { IfOk result (λ ended. (fault : Refusal) → IsRefusedFirst settings.now fault → (ended.answer ≡ Err fault)
        × O.opens opener.now (name_in settings.now) ended.input × O.makes opener.now ended.input (name_out settings.now) ended.output) }
    ensures refused { IfErr result (HasNoEnd (O.opens opener.now) (O.has_none opener.now) (O.makes_none opener.now) settings.now) }
{
    let mut input = input_of(opener, settings)?;
    let mut output = output_of(opener, &input, settings)?;
    let answer = run_between(rt, alloc, settings, &mut input, &mut output);
    Ok(Ended {
        input,
        output,
        answer,
    })
}

/// Opens a command's input.
fn input_of<O: Opener>(opener: &O, settings: &Settings) -> Result<O::Input, Fault>
    ensures opened { IfOk result (O.opens opener.now (name_in settings.now)) }
    ensures refused { IfErr result (λ e. (name : List ℕ) × (name_in settings.now ≡ Some name) × (e ≡ Read) × O.has_none opener.now name) }
{
    match settings {
        Settings::Show | Settings::Inspect => Ok(opener.standard_input()),
        Settings::Compress(_, from, _) | Settings::Expand(_, from, _) => opener.open(from.as_str()),
    }
}

/// Creates a command's output.
fn output_of<O: Opener>(
    opener: &O,
    input: &O::Input,
    settings: &Settings,
) -> Result<O::Output, Fault>
    ensures made { IfOk result (O.makes opener.now input.now (name_out settings.now)) }
    ensures refused { IfErr result (λ e. (name : List ℕ) × (name_out settings.now ≡ Some name) × (e ≡ Write 0) × O.makes_none opener.now input.now name) }
{
    match settings {
        Settings::Show | Settings::Inspect => Ok(opener.standard_output()),
        Settings::Compress(_, _, to) | Settings::Expand(_, _, to) => {
            opener.create(input, to.as_str())
        }
    }
}

/// Runs a command between its two ends; `compress` runs in threads where it has predictors.
///
/// The refusals, and what is then written, are those of the command. Unlawful parameters are refused before anything
/// is read, and then numbers of predictors and slots that no plan may have.
pub fn run_between<R: Threads + Wait + Sync, S: Source, K: Sink>(
    rt: &R,
    alloc: Global,
    settings: &Settings,
    source: &mut S,
    sink: &mut K,
) -> Result<(), Fault>
    requires { HasLayout settings.now }
    ensures checked { (p : Parameters) (fault : Refusal) → checked_params settings.now ≡ Some p → params_fault p ≡ Err fault
        → (result ≡ Err fault) × (source.new ≡ source.old) × (sink.new ≡ sink.old) }
    ensures planned_first { (fault : Refusal) → IsUnplanned settings.now fault → (result ≡ Err fault) × (source.new ≡ source.old)
        × (sink.new ≡ sink.old) }
    ensures done { OnOk result (Does settings.now (S.left source.old) (K.taken sink.old) (K.taken sink.new)) }
    ensures planned { OnOk result (IsPlanned settings.now) }
    ensures refused { IfErr result (IsFaultOf settings.now (S.left source.old) (S.failures source.old) (S.failures source.new) (K.taken sink.old)
        (K.taken sink.new) (K.failures sink.old) (K.failures sink.new) (K.stalls sink.old) (K.stalls sink.new)) }
    ensures worked { OnOk result ((S.failures source.new ≡ S.failures source.old) × (K.failures sink.new ≡ K.failures sink.old)
        × (K.stalls sink.new ≡ K.stalls sink.old)) }
    ensures told { IfErr result (ToldAsRead (S.failures source.old) (S.failures source.new)) }
    ensures unwritten { IfErr result (λ e. IsWrite e ⊎ (sink.new ≡ sink.old)) }
    ensures bounded { GaveWithin (limit_of settings.now) (S.left source.old) (S.left source.new) }
    ensures unfilled { IfErr result (IsUnfilled settings.now (S.left source.old) (S.left source.new)) }
{
    match settings {
        Settings::Show => run_show(alloc, source, sink),
        Settings::Compress(settings, _, _) if settings.predictors == 0 => {
            run_compress(alloc, source, sink, settings)
        }
        Settings::Compress(settings, _, _) => {
            run_piped(rt, alloc, source, sink, settings, &OpenGate)
        }
        Settings::Expand(layout, _, _) => run_expand(alloc, source, sink, layout),
        Settings::Inspect => run_inspect(alloc, source, sink),
    }
}
