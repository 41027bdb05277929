ghost use Rattle.std.specs.Prelude.{◌≡◌, OnOk, true, MatchResult};
ghost use Rattle.liszt_io.specs.Causes.{Rose, HasCause};
ghost use Rattle.liszt_io.specs.Sinks.{Writes};
ghost use Rattle.liszt_report.specs.declared.ended.Ended.TheVariants.{WriteFault as NotWritten};
ghost use Rattle.liszt_report.specs.Endings.{ending_text};
ghost use Rattle.liszt.specs.Answers.{Refuses};
ghost use Rattle.liszt.specs.Internal.Steps.{WritesOutcome, job_outcome, seq_outcome, stencil_outcome};

use crate::job::{Job, SeqJob, StencilJob};
use crate::store_values::StoreValues;
use liszt_base::RunEnd;
use liszt_io::{Sink, WriteFault};
use liszt_report::{Ended, write_check, write_ending, write_fields, write_prints, write_stencils};

/// Writes the line of a refusal and flushes.
pub fn write_refusal<S: Sink>(out: &mut S, ended: &Ended) -> Result<(), WriteFault>
    ensures cause { HasCause (S.faults out.old) (S.faults out.new) result }
    ensures writes { Writes (ending_text ended.now) (S.output out.old) (S.output out.new) result }
    ensures flushed { OnOk result (S.is_flushed out.new ≡ true) }
{
    write_ending(out, ended)?;
    flush(out)
}

/// Writes the text of a job and flushes. The result is the ending of the run.
pub fn write_job<S: Sink>(out: &mut S, job: &Job) -> Result<Ended, WriteFault>
    ensures cause { HasCause (S.faults out.old) (S.faults out.new) result }
    ensures writes { WritesOutcome (job_outcome job.now) (S.output out.old) (S.output out.new)
        result }
    ensures flushed { OnOk result (S.is_flushed out.new ≡ true) }
{
    write_job_text(out, job)?;
    flush(out)?;
    Ok(ending_of_job(job))
}

/// Writes the text of a job.
fn write_job_text<S: Sink>(out: &mut S, job: &Job) -> Result<(), WriteFault>
    ensures cause { HasCause (S.faults out.old) (S.faults out.new) result }
    ensures writes { Writes (job_outcome job.now).text (S.output out.old) (S.output out.new) result }
{
    match job {
        Job::Check(job) => write_check(out, job.text.as_slice(), &job.checked, &job.mesh),
        Job::Stencil(job) => write_all_stencils(out, job),
        Job::Seq(job) => write_run(out, job),
    }
}

/// The ending of a job.
fn ending_of_job(job: &Job) -> Ended
    ensures { result ≡ (job_outcome job.now).ended }
{
    match job {
        Job::Check(_) | Job::Stencil(_) => Ended::Done,
        Job::Seq(job) => match job.end {
            RunEnd::Done => Ended::Done,
            RunEnd::Trap(trap) => Ended::Trap(trap),
        },
    }
}

/// Writes the stencils of each comprehension.
fn write_all_stencils<S: Sink>(out: &mut S, job: &StencilJob) -> Result<(), WriteFault>
    ensures cause { HasCause (S.faults out.old) (S.faults out.new) result }
    ensures writes { Writes (stencil_outcome job.now).text (S.output out.old) (S.output out.new)
        result }
{
    let stencils = job.stencils.as_slice();
    for k in 0..job.checked.comps() {
        write_stencils(out, &job.checked, k, stencils[k as usize].lists())?;
    }
    Ok(())
}

/// Writes what a run printed, and then the values of the fields of the outermost scope, or the line of its trap.
fn write_run<S: Sink>(out: &mut S, job: &SeqJob) -> Result<(), WriteFault>
    ensures cause { HasCause (S.faults out.old) (S.faults out.new) result }
    ensures writes { Writes (seq_outcome job.now).text (S.output out.old) (S.output out.new) result }
{
    write_prints(out, job.store.prints())?;
    match job.end {
        RunEnd::Done => {
            let mut values = StoreValues { store: &job.store };
            write_fields(out, &job.checked, &job.mesh, &mut values)
        }
        RunEnd::Trap(trap) => write_ending(out, &Ended::Trap(trap)),
    }
}

/// Flushes the sink.
fn flush<S: Sink>(out: &mut S) -> Result<(), WriteFault>
    ensures cause { HasCause (S.faults out.old) (S.faults out.new) result }
    ensures unchanged { S.output out.new ≡ S.output out.old }
    ensures flushed { OnOk result (S.is_flushed out.new ≡ true) }
{
    match out.flush() {
        Ok(()) => Ok(()),
        Err(_) => Err(WriteFault),
    }
}

/// The ending, or `WriteFault` where its text was not written.
pub fn ended_by(written: Result<(), WriteFault>, ended: Ended) -> Ended
    ensures { MatchResult written (λ _. result ≡ ended) (λ _. result ≡ NotWritten) }
{
    match written {
        Ok(()) => ended,
        Err(_) => Ended::WriteFault,
    }
}

/// The ending of a run, or `WriteFault` where its text was not written.
pub fn ending_of(written: Result<Ended, WriteFault>) -> Ended
    ensures { MatchResult written (λ ended. result ≡ ended) (λ _. result ≡ NotWritten) }
{
    match written {
        Ok(ended) => ended,
        Err(_) => Ended::WriteFault,
    }
}

/// Ends a run by a refusal: writes its line and flushes. The result is the refusal, or `WriteFault`.
pub fn end_refused<S: Sink>(out: &mut S, ended: Ended) -> Ended
    ensures refuses { Refuses ended (S.output out.old) (S.output out.new) result }
    ensures flushed { (result ≡ NotWritten → ⊥) → S.is_flushed out.new ≡ true }
    ensures cause { (ended ≡ NotWritten → ⊥) → result ≡ NotWritten
        → Rose (S.faults out.old) (S.faults out.new) }
    ensures no_fault { (result ≡ NotWritten → ⊥) → S.faults out.new ≡ S.faults out.old }
{
    ended_by(write_refusal(out, &ended), ended)
}
