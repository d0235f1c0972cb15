//! The whole of a job: words, files, what is made of them, files, lines.

ghost use Rattle.std.specs.Prelude.{◌≡◌, ◌≤◌, ◌⊎◌, ℕ, List, OnOk, IfOk, IfErr};
ghost use Rattle.std.specs.String.{string_bytes};
ghost use Rattle.fileset.specs.Told.{Tells, IsSameFiles};
ghost use Rattle.fileset.specs.Faults.{Rose};
ghost use Rattle.csyn.specs.declared.span.Span.{Span};
ghost use Rattle.csyn.specs.declared.cause.Cause.{Cause};
ghost use Rattle.hostscript.specs.declared.cause.ScriptCause.{ScriptCause};
ghost use Rattle.pruelf.specs.declared.fault.LoadCause.{LoadCause};
ghost use Rattle.modefiles.specs.Reading.{AreWithin, IsNamed, IsMost, IsFirstLong, bytes_of};
ghost use Rattle.modefiles.specs.Writing.{named};
ghost use Rattle.prucc.specs.Job.{Asks, texts, inputs, cores_of};
ghost use Rattle.prucc.specs.Answers.{AskFor, Makes, Refuses, Finishes, IsRefused, IsUntouched, OutputFailed, MemoryWanted};
ghost use Rattle.prucc.specs.Answers.{IsBeforeWrites, IsBeforeSink, IsPlanned, PlanFails, Fails};

use crate::executables::run_executables;
use crate::job::Job;
use crate::refusal::Refusal;
use crate::sources::run_sources;
use crate::status::Status;
use crate::work::Work;
use csyn::{Cause, Span};
use fileset::{Files, Sink};
use hostscript::ScriptCause;
use modefiles::{Name, put_lines, read_all, write_all};
use pruelf::LoadCause;
use std::alloc::Global;

/// What the job makes of the texts of its files.
fn work_of(alloc: Global, job: &Job, texts: &[Vec<u8>]) -> Result<Work, Refusal>
    requires within { AreWithin (inputs job.now) (bytes_of texts.now) }
    requires cycles { (cores_of job.now).cycles ≤ 2000000 }
    ensures makes { IfOk result (λ work. Makes job.now (bytes_of texts.now) (named work.outputs.items) (string_bytes work.lines)) }
    ensures refuses { IfErr result (Refuses job.now (bytes_of texts.now)) }
{
    let [zero, one, script] = texts else {
        return Err(Refusal::NoMemory);
    };
    match job {
        Job::Run(cores) => run_sources(alloc, cores, zero, one, script),
        Job::Sim { cores, table } => run_executables(alloc, cores, *table, zero, one, script),
    }
}

/// What the words ask to be written.
fn plan<F: Files>(alloc: Global, words: &[String], files: &mut F) -> Result<Work, Status>
    ensures work { IfOk result (IsPlanned (texts words.now) (F.told files.old) (F.told files.new)) }
    ensures same { Tells (F.told files.old) (F.told files.new) IsSameFiles }
    ensures err { IfErr result (PlanFails (texts words.now) (F.told files.old) (F.told files.new)
        (F.faults files.old) (F.faults files.new)) }
    ensures grows { F.faults files.old ≤ F.faults files.new }
{
    let Some(job) = Job::from_words(alloc, words)? else {
        return Err(Status::Words);
    };
    let inputs = job.inputs(alloc)?;
    let texts = read_all(alloc, files, &inputs)?;
    Ok(work_of(alloc, &job, &texts)?)
}

fn do_words<F: Files, S: Sink>(
    alloc: Global,
    words: &[String],
    files: &mut F,
    out: &mut S,
) -> Result<(), Status>
    ensures ok { OnOk result (Finishes (texts words.now) (F.told files.old) (F.told files.new) (S.told out.old) (S.told out.new)) }
    ensures err { IfErr result (Fails (texts words.now) (F.told files.old) (F.told files.new) (F.faults files.old) (F.faults files.new)
        (S.told out.old) (S.told out.new) (S.faults out.old) (S.faults out.new)) }
{
    // A sink that fails wants no memory to say so.
    let sink_name = Name::of(alloc, "-")?;
    let Work { outputs, lines } = plan(alloc, words, files)?;
    write_all(files, outputs)?;
    put_lines(out, sink_name, lines.as_bytes())?;
    Ok(())
}

/// Does what the words ask for, and says how it ended.
///
/// Reads the files of the job, makes what it asks for of them, writes its files and puts its lines to the sink.
pub fn prucc<F: Files, S: Sink>(
    alloc: Global,
    words: &[String],
    files: &mut F,
    out: &mut S,
) -> Status
    // The words are refused exactly where they ask for nothing, unless memory is wanting.
    ensures words { result ≡ Status.Words → (job : Job) → Asks (texts words.now) job → ⊥ }
    ensures no_job { ((job : Job) → Asks (texts words.now) job → ⊥) → (result ≡ Status.Words) ⊎ (result ≡ Status.NoMemory) }

    // The files and lines that the job makes of what its files hold are written, and nothing else is.
    ensures done { result ≡ Status.Done → Finishes (texts words.now) (F.told files.old) (F.told files.new)
        (S.told out.old) (S.told out.new) }

    // The cause for which the job makes nothing of what its files hold: the first rule that a source breaks; the first bad line of
    // the script; the first fault of an executable; the first file that isn't built yet, at the place from which it isn't.
    ensures source { (core : ℕ) (span : Span) (cause : Cause) → result ≡ Status.Source core span cause
        → IsRefused (texts words.now) (F.told files.old) (F.told files.new) (Refusal.Source core span cause) }
    ensures script { (line : ℕ) (cause : ScriptCause) → result ≡ Status.Script line cause
        → IsRefused (texts words.now) (F.told files.old) (F.told files.new) (Refusal.Script line cause) }
    ensures elf { (name : List ℕ) (offset : ℕ) (cause : LoadCause) → result ≡ Status.Elf name offset cause
        → IsRefused (texts words.now) (F.told files.old) (F.told files.new) (Refusal.Elf name offset cause) }
    ensures not_built { (name : List ℕ) (span : Span) → result ≡ Status.NotBuilt name span
        → IsRefused (texts words.now) (F.told files.old) (F.told files.new) (Refusal.NotBuilt name span) }

    // The first file that is too long, and its most bytes.
    ensures too_long { (name : List ℕ) (max : ℕ) → result ≡ Status.TooLong name max → AskFor (texts words.now)
        (λ job. IsMost (inputs job) name max
        × Tells (F.told files.old) (F.told files.new) (λ before _. IsFirstLong before (inputs job) name max)) }

    // A fault is the files' or the sink's: its count rose in this call.
    ensures read { (name : List ℕ) → result ≡ Status.ReadFault name → AskFor (texts words.now)
        (λ job. IsNamed (inputs job) name × Rose (F.faults files.old) (F.faults files.new)) }
    ensures write { (name : List ℕ) → result ≡ Status.WriteFault name
        → OutputFailed (texts words.now) name (F.told files.old) (F.told files.new) (F.faults files.old) (F.faults files.new)
        (S.told out.old) (S.told out.new) (S.faults out.old) (S.faults out.new) }

    // What a refusal leaves.
    ensures memory { result ≡ Status.NoMemory → MemoryWanted (texts words.now) (F.told files.old) (F.told files.new) }
    ensures files_kept { IsBeforeWrites result → Tells (F.told files.old) (F.told files.new) IsSameFiles }
    ensures sink_kept { IsBeforeSink result → IsUntouched (S.told out.old) (S.told out.new) }
{
    match do_words(alloc, words, files, out) {
        Ok(()) => Status::Done,
        Err(status) => status,
    }
}
